// The log after 1,100 reports, of every kind in turn, to be held to the oracle's records of the same diagnostics.
#![tactic(auto)]

ghost use Rattle.std.specs.Prelude.{◌<◌, ◌≡◌, length};

use config::DisplayMode;
use diagnostic::{DiagnosticKind, Journal, Log, Stage};
use std::io;

fn stage_of(turn: u64) -> Stage {
    match turn % 7 {
        0 => Stage::AnalogOn,
        1 => Stage::TemperatureLoad,
        2 => Stage::LutLoad,
        3 => Stage::Display,
        4 => Stage::HvReadyDetection,
        5 => Stage::VciDetection,
        _ => Stage::VcomSense,
    }
}

fn mode_of(turn: u64) -> DisplayMode {
    match turn % 2 {
        0 => DisplayMode::One,
        _ => DisplayMode::Two,
    }
}

// The kinds in turn, with fields of every size.
fn kind_of(turn: u64) -> DiagnosticKind
    requires { turn < 1100 }
{
    let command = (turn * 37 % 256) as u8;
    let x = (turn * 7919 % 65536) as u16;
    let y = (turn * 104729 % 65536) as u16;
    let temperature = (turn * 31 % 4096) as u16;
    match turn % 19 {
        0 => DiagnosticKind::UnknownCommand { command },
        1 => DiagnosticKind::ReservedCommand { command },
        2 => DiagnosticKind::UnsupportedCommand { command },
        3 => DiagnosticKind::DataWithoutCommand { data: command },
        4 => DiagnosticKind::ExtraData { command },
        5 => DiagnosticKind::MissingData {
            command,
            expected: x,
            received: y,
        },
        6 => DiagnosticKind::WhileBusy { command },
        7 => DiagnosticKind::WhileAsleep { command },
        8 => DiagnosticKind::WhileInReset { command },
        9 => DiagnosticKind::ReservedValue {
            command,
            value: (y % 256) as u8,
        },
        10 => DiagnosticKind::RamOutOfRange { command, x, y },
        11 => DiagnosticKind::CounterOutsideWindow { command, x, y },
        12 => DiagnosticKind::WithoutClock {
            stage: stage_of(turn),
        },
        13 => DiagnosticKind::WithoutAnalog {
            stage: stage_of(turn),
        },
        14 => DiagnosticKind::NoWaveform {
            mode: mode_of(turn),
            temperature,
        },
        15 => DiagnosticKind::NoExternalSensor,
        16 => DiagnosticKind::RamPingPong,
        17 => DiagnosticKind::NothingToRead { command },
        _ => DiagnosticKind::ResetDuringDisplay,
    }
}

fn report_all(log: &mut Log) -> Journal {
    let mut journal = Journal {
        count: 0,
        dropped: 0,
        reserved_reported: false,
    };
    for turn in 0..1100 {
        let time = 18446744073709551615 / (turn + 1);
        journal = diagnostic_log::report(journal, log, time, kind_of(turn));
    }
    journal
}

fn main(rt: HostRuntime) -> io::Result<()> {
    let mut log = [0u8; 16384];
    let journal = report_all(&mut log);
    rt.write_all(&log)?;
    rt.println(journal.count)?;
    rt.println(journal.dropped)
}
