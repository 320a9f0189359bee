//! The program `sci_station_timer`: stations in one thread, each a round at a time in a circle. It is there to be timed.
#![tactic(auto)]

mod circle;
mod runner;

use circle::timed_run;
use sci_text::{Tap, read_script, whole_number};
use std::env;
use std::process::ExitCode;

/// How often the script is run, and whether the time of each run is printed, by the program's words. None if they are others.
fn asked(rt: &HostRuntime) -> Option<(u64, bool)> {
    let mut words = env::args(rt).ok()?.skip(1);
    let times = whole_number(words.next()?.as_bytes())?;
    let Some(word) = words.next() else {
        return Some((times, false));
    };
    if word.as_bytes() != b"timed".as_slice() || words.next().is_some() {
        return None;
    }
    Some((times, true))
}

fn main(rt: HostRuntime) -> ExitCode {
    let Some((times, timed)) = asked(&rt) else {
        let _ = eprintln!(rt; "usage: sci_station_timer TIMES [timed] < SCRIPT");
        return ExitCode::from(2);
    };
    let Ok(script) = read_script(rt.alloc(), &mut Tap::new(rt.stdin())) else {
        let _ = eprintln!(rt; "the script has a fault");
        return ExitCode::from(2);
    };
    let count = script.operations().len();
    for _time in 0..times {
        match timed_run(&rt, rt.alloc(), &script) {
            Ok(Some(run)) if timed => {
                let time = run.time.as_nanos();
                let _ = println!(rt; "{count} operations in {} rounds, {time} ns", run.rounds);
            }
            Ok(Some(run)) => {
                let _ = println!(rt; "{count} operations in {} rounds", run.rounds);
            }
            Ok(None) => return ExitCode::from(1),
            Err(_refused) => return ExitCode::from(2),
        }
    }
    ExitCode::SUCCESS
}
