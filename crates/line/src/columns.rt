// The three columns of a line (docs/replay-format.md).
ghost use Rattle.std.specs.Prelude.{◌≡◌};
ghost use Rattle.line.specs.Lines.{columns_of, three_of};

#[derive(Clone, Copy)]
pub struct Columns {
    pub number: u64,
    pub kind: u64,
    pub value: u64,
}

fn three(number: Option<u64>, kind: Option<u64>, value: Option<u64>) -> Option<Columns>
    ensures { result ≡ three_of number kind value }
{
    Some(Columns {
        number: number?,
        kind: kind?,
        value: value?,
    })
}

// None where a line is not 26 bytes and LF, or a column holds no number.
pub fn read(line: &[u8]) -> Option<Columns>
    ensures { result ≡ columns_of line.now }
{
    if line.len() != 27 {
        return None;
    }
    if line[26] != b'\n' {
        return None;
    }
    let number = column::read::number(&line[0..20]);
    let kind = column::read::number(&line[20..22]);
    let value = column::read::number(&line[22..26]);
    three(number, kind, value)
}
