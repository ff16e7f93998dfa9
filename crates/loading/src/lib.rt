// The stages of an activation up to its display: clock, analog supplies, temperature and LUT (mod.rs, `activate` and
// `load_temperature`).
#![tactic(auto)]

ghost use Rattle.std.specs.Prelude.{◌≡◌, length};
ghost use Rattle.stages.specs.Run.{step};
ghost use Rattle.stages.specs.Stages.{clock_on, analog_on, sensed, temperature_loaded, setting_in, lut_found, lut_loaded, loaded};

use config::{DisplayMode, Ssd1677Config};
use diagnostic::{DiagnosticKind, Log, Stage};
use otp::ENTRY_BYTES;
use stages::{Control, Run, mode_of, note, wait};

// 0x18: the internal sensor; any other value selects the external one.
const INTERNAL_SENSOR: u8 = 0x80;

fn clock_on(run: Run, wanted: bool, ns: u64) -> Run
    ensures { result ≡ clock_on wanted ns run }
{
    if wanted & !run.clock {
        let mut next = run;
        next.clock = true;
        return wait(next, ns);
    }
    run
}

fn analog_on(run: Run, log: &mut Log, time: u64, wanted: bool, ns: u64) -> Run
    ensures { step result log.new ≡ analog_on time wanted ns (step run log.old) }
{
    if wanted & !run.analog {
        if run.clock {
            let mut next = run;
            next.analog = true;
            return wait(next, ns);
        }
        return note(
            run,
            log,
            time,
            DiagnosticKind::WithoutClock {
                stage: Stage::AnalogOn,
            },
        );
    }
    run
}

// The temperature load: the internal sensor, or the external one.
fn load_temperature(run: Run, log: &mut Log, time: u64, sensor: u8, config: Ssd1677Config) -> Run
    ensures { step result log.new ≡ sensed time sensor config config.external_sensor (step run log.old) }
{
    let timing = config.timing;
    if sensor == INTERNAL_SENSOR {
        let mut next = run;
        next.temperature = config.ambient % 4096;
        return wait(next, timing.temperature_internal);
    }
    let external = config.external_sensor;
    match external {
        Some(register) => {
            let mut next = run;
            next.temperature = register % 4096;
            wait(next, timing.temperature_external)
        }
        None => {
            let next = note(run, log, time, DiagnosticKind::NoExternalSensor);
            wait(next, timing.temperature_external)
        }
    }
}

fn temperature_stage(
    run: Run,
    log: &mut Log,
    time: u64,
    wanted: bool,
    sensor: u8,
    config: Ssd1677Config,
) -> Run
    ensures { step result log.new ≡ temperature_loaded time wanted sensor config (step run log.old) }
{
    if wanted {
        if run.clock {
            return load_temperature(run, log, time, sensor, config);
        }
        return note(
            run,
            log,
            time,
            DiagnosticKind::WithoutClock {
                stage: Stage::TemperatureLoad,
            },
        );
    }
    run
}

// The 112 setting bytes of an entry of the table.
fn setting_of(entry: &[u8]) -> [u8; 112]
    requires { length entry.now ≡ 118 }
    ensures { result ≡ setting_in entry.now }
{
    let mut lut = [0u8; 112];
    byte_copy::copy(&entry[6..ENTRY_BYTES], &mut lut);
    lut
}

// The waveform of the mode and the temperature register, with its place in the table, or 35.
fn load_lut(run: Run, log: &mut Log, time: u64, mode: DisplayMode, otp: &[u8]) -> Run
    ensures { step result log.new ≡ lut_found time mode otp.now (step run log.old) }
{
    let temperature = run.temperature;
    let mut place: u8 = 255;
    let entry = otp::find_waveform(otp, mode, temperature, &mut place);
    let mut next = run;
    if entry.len() == ENTRY_BYTES {
        let lut = setting_of(entry);
        next.lut = lut;
        next.waveform = place;
        return next;
    }
    next.waveform_found = false;
    note(
        next,
        log,
        time,
        DiagnosticKind::NoWaveform { mode, temperature },
    )
}

fn lut_stage(
    run: Run,
    log: &mut Log,
    time: u64,
    wanted: bool,
    mode: DisplayMode,
    otp: &[u8],
    ns: u64,
) -> Run
    ensures { step result log.new ≡ lut_loaded time wanted mode otp.now ns (step run log.old) }
{
    if wanted {
        if run.clock {
            let found = load_lut(run, log, time, mode, otp);
            return wait(found, ns);
        }
        return note(
            run,
            log,
            time,
            DiagnosticKind::WithoutClock {
                stage: Stage::LutLoad,
            },
        );
    }
    run
}

// The four stages that come before the display.
pub fn load(
    run: Run,
    log: &mut Log,
    time: u64,
    control: Control,
    sensor: u8,
    config: Ssd1677Config,
    otp: &[u8],
) -> Run
    ensures { step result log.new ≡ loaded time control sensor config otp.now (step run log.old) }
{
    let timing = config.timing;
    let mode = mode_of(control.mode_two);
    let a = clock_on(run, control.clock_on, timing.clock_on);
    let b = analog_on(a, log, time, control.analog_on, timing.analog_on);
    let c = temperature_stage(b, log, time, control.load_temperature, sensor, config);
    lut_stage(c, log, time, control.load_lut, mode, otp, timing.lut_load)
}
