// How often each grey occurs in a picture (SCOPE, Grey counts; #108).
#![tactic(auto)]

ghost use Rattle.std.specs.Prelude.{◌≡◌, ◌<◌, ◌^◌, length};
ghost use Rattle.numbers.specs.Lists.{tab};
ghost use Rattle.counts.specs.Counts.{counts_of};
ghost use Rattle.counts.specs.Tables.{one_more, Room, joined, Joinable};

// The greys from 0 to 255.
pub const GREYS: usize = 256;

// How often each occurs.
pub type Counts = [u32; GREYS];

// One pixel more of a grey.
fn add(table: &mut Counts, grey: u8)
    requires { Room table.old grey }
    ensures { table.new ≡ one_more table.old grey }
{
    let place = grey as usize;
    table[place] = table[place] + 1;
}

// The sum of four tables.
fn join(counts: &mut Counts, a: &Counts, b: &Counts, c: &Counts, d: &Counts)
    requires { Joinable a.now b.now c.now d.now }
    ensures { counts.new ≡ joined a.now b.now c.now d.now }
{
    // The counter is a grey: its place in all five.
    for g in 0..GREYS {
        counts[g] = a[g] + b[g] + c[g] + d[g];
    }
}

// The counts of these pixels, whatever was there. Four pixels in turn have a table each: in one table, a run of one grey would wait for its
// own stores.
pub fn count(pixels: &[u8], counts: &mut Counts)
    requires pixels_len_bound { length pixels.now < 2 ^ 32 }
    ensures { counts.new ≡ counts_of pixels.now }
{
    let mut a = [0u32; GREYS];
    let mut b = [0u32; GREYS];
    let mut c = [0u32; GREYS];
    let mut d = [0u32; GREYS];
    let (quads, rest) = pixels.as_chunks::<4>();
    for quad in quads {
        add(&mut a, quad[0]);
        add(&mut b, quad[1]);
        add(&mut c, quad[2]);
        add(&mut d, quad[3]);
    }
    for pixel in rest {
        add(&mut a, *pixel);
    }
    join(counts, &a, &b, &c, &d);
}

// The counts of as many pixels of one grey, with no pass over them.
pub fn fill(counts: &mut Counts, grey: u8, number: u32)
    ensures { counts.new ≡ counts_of (tab number (λ _. grey)) }
{
    counts.fill(0);
    let at = grey as usize;
    counts[at] = number;
}
