// The chip at power-on (mod.rs, `new`): the configuration, the table and the lent buffers are tested, then all of it is set up.
#![tactic(auto)]

ghost use Rattle.std.specs.Prelude.{◌≡◌, ◌≤◌, ◌<◌, ◌^◌, length};
ghost use Rattle.config.specs.Answer.{first_of, refused_by};
ghost use Rattle.gates_laws.specs.OneToOne.{Scanned};
ghost use Rattle.counts.specs.Counts.{picture};
ghost use Rattle.power_on.specs.declared.StartError.TheVariants.{Parameters};
ghost use Rattle.power_on.specs.Start.{all_tests, start_refused_by, start_answer_of, start_error_in, chip_with, unstarted, refused_start, chip_in, clean, cleared, buffers, powered, powered_up, start, started, refusal_of};

use config::{ConfigError, Ssd1677Config};
use counts::Counts;
use device::{Bus, Current, Power, Ssd1677, Status};
use diagnostic::{Journal, Log};
use glass::{PanelImage, RefreshKind};
use guard_lengths::Lengths;
use panel::Panel;

// Why a start was refused.
#[derive(Clone, Copy)]
pub enum StartError {
    // 1 to 6, 12 and 14.
    Parameters(ConfigError),
    // 11: a buffer's length.
    Buffer,
    // 15: the length of the table of counts.
    Counts,
}

impl From<ConfigError> for StartError {
    ghost from_gives = { λ parameters error. error ≡ Parameters parameters };

    fn from(parameters: ConfigError) -> StartError {
        StartError::Parameters(parameters)
    }
}

// What a refused start hands back: a chip that every call refuses.
#[derive(Clone, Copy)]
pub struct RefusedStart {
    pub error: StartError,
    pub state: Ssd1677,
}

// A refused start's number and its value, 0 where it has none (SCOPE, Refusals).
#[derive(Clone, Copy)]
pub struct StartRefusal {
    pub number: u8,
    pub value: usize,
}

// The same of the configuration and the table.
fn number_of_parameters(error: ConfigError) -> StartRefusal
    ensures { result ≡ refusal_of (refused_by error) }
{
    match error {
        ConfigError::EmptyPanel => StartRefusal {
            number: 1,
            value: 0,
        },
        ConfigError::PanelOutsideRam => StartRefusal {
            number: 2,
            value: 0,
        },
        ConfigError::OddRowsWithGd => StartRefusal {
            number: 3,
            value: 0,
        },
        ConfigError::ZeroSwing => StartRefusal {
            number: 4,
            value: 0,
        },
        ConfigError::ZeroFramePeriod(code) => StartRefusal {
            number: 5,
            value: code,
        },
        ConfigError::ZeroFrequency => StartRefusal {
            number: 14,
            value: 0,
        },
        ConfigError::BadTable => StartRefusal {
            number: 12,
            value: 0,
        },
        ConfigError::OtpVoltage(index) => StartRefusal {
            number: 6,
            value: index,
        },
    }
}

// What a program tells of a refused start.
impl From<StartError> for StartRefusal {
    ghost from_gives = { λ error refusal. refusal ≡ refusal_of (start_refused_by error) };

    fn from(error: StartError) -> StartRefusal {
        match error {
            StartError::Parameters(parameters) => number_of_parameters(parameters),
            StartError::Buffer => StartRefusal {
                number: 11,
                value: 0,
            },
            StartError::Counts => StartRefusal {
                number: 15,
                value: 0,
            },
        }
    }
}

// By SCOPE, Refusals: the configuration and the table, then the lengths.
fn check(config: Ssd1677Config, otp: &[u8], lengths: Lengths) -> Result<(), StartError>
    ensures { start_answer_of result ≡ first_of (all_tests config otp.now lengths) }
{
    validate::validate(config, otp)?;
    if !guard_lengths::lengths_fit(config.panel, lengths) {
        return Err(StartError::Buffer);
    }
    if !guard_lengths::counts_fit(lengths) {
        return Err(StartError::Counts);
    }
    Ok(())
}

// Supplies off, no command, nothing reported.
fn chip_with(config: Ssd1677Config, panel: Panel) -> Ssd1677
    ensures { result ≡ chip_with config panel }
{
    let user_id = config.user_id;
    let regs = registers::reset(user_id);
    let bus = Bus {
        power: Power::Running,
        current: Current::Idle,
        busy_until: None,
    };
    let status = Status {
        hv_not_ready: false,
        vci_low: false,
    };
    let journal = Journal {
        count: 0,
        dropped: 0,
        reserved_reported: false,
    };
    Ssd1677 {
        config,
        now: 0,
        regs,
        bus,
        clock: false,
        analog: false,
        status,
        panel,
        display: None,
        journal,
    }
}

// The chip that none was started on: every call refuses it.
pub fn unstarted(config: Ssd1677Config) -> Ssd1677
    ensures { result ≡ unstarted config }
{
    let image = PanelImage {
        width: 0,
        height: 0,
        border: 0,
        generation: 0,
        kind: RefreshKind::PowerOn,
        interrupted: false,
        started: 0,
        at: 0,
    };
    let panel = Panel {
        swing: 0,
        border: 0,
        image,
    };
    chip_with(config, panel)
}

fn refuse(config: Ssd1677Config, error: StartError) -> RefusedStart
    ensures { result ≡ refused_start config error }
{
    let state = unstarted(config);
    RefusedStart { error, state }
}

// ASSUMPTION: the RAM reads 0 at power-on; the datasheet leaves it undefined (mod.rs).
fn clear(black_white: &mut [u8], red: &mut [u8], log: &mut Log)
    ensures { clean black_white.new red.new log.new ≡ cleared (length black_white.old) (length red.old) (length log.old) }
{
    ram::fill(&mut black_white[..], 0x00);
    ram::fill(&mut red[..], 0x00);
    ram::fill(&mut log[..], 0x00);
}

// The chip and its buffers at power-on.
fn power_up(
    config: Ssd1677Config,
    states: &mut [i64],
    luts: &mut [u8],
    pixels: &mut [u8],
    counts: &mut Counts,
    black_white: &mut [u8],
    red: &mut [u8],
    gates: &mut [u16],
    log: &mut Log,
) -> Ssd1677
    requires { (1 ≤ config.optics.full_swing) × Scanned config.panel.native_scan config.panel.height × (length gates.old ≡ config.panel.height) × (length pixels.old < 2 ^ 32) }
    ensures { powered result (buffers states.new luts.new (picture pixels.new counts.new) black_white.new red.new gates.new log.new) ≡ powered_up config (buffers states.old luts.old (picture pixels.old counts.old) black_white.old red.old gates.old log.old) }
{
    let panel = panel_start::new(config.panel, config.optics, states, luts, pixels, counts);
    clear(black_white, red, log);
    scan::gate_of_row(gates, config.panel);
    chip_with(config, panel)
}

// The chip at power-on, under a configuration and a table. Planes and log are lent to be filled with 0x00, chosen LUTs with 255, states,
// pixels, their counts and gates as the glass needs them.
pub fn new(
    config: Ssd1677Config,
    states: &mut [i64],
    luts: &mut [u8],
    pixels: &mut [u8],
    counts: &mut [u32],
    black_white: &mut [u8],
    red: &mut [u8],
    gates: &mut [u16],
    log: &mut [u8],
    otp: &[u8],
) -> Result<Ssd1677, RefusedStart>
    ensures { start (start_answer_of (start_error_in result)) (powered (chip_in result) (buffers states.new luts.new (picture pixels.new counts.new) black_white.new red.new gates.new log.new)) ≡ started config otp.now (buffers states.old luts.old (picture pixels.old counts.old) black_white.old red.old gates.old log.old) }
{
    let lengths = guard_lengths::all_lent(
        states.len(),
        luts.len(),
        pixels.len(),
        counts.len(),
        log.len(),
        black_white.len(),
        red.len(),
        gates.len(),
    );
    if let Err(error) = check(config, otp, lengths) {
        return Err(refuse(config, error));
    }
    // The test has seen both lengths.
    let Some(counts) = counts.as_mut_array() else {
        return Err(refuse(config, StartError::Counts));
    };
    let Some(log) = log.as_mut_array() else {
        return Err(refuse(config, StartError::Buffer));
    };
    Ok(power_up(
        config,
        states,
        luts,
        pixels,
        counts,
        black_white,
        red,
        gates,
        log,
    ))
}
