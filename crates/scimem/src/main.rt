//! The program `scimem`: it reads standard input, and writes standard output.
#![tactic(auto)]

mod audit;
mod carrying_out;
mod choice;
mod decode;
mod laws;
mod oracle;
mod replay;
mod threads;
mod upgrade;

use carrying_out::carried_out;
use choice::{MANUAL, TURNS, USAGE, asked};
use sci_command::Output;
use sci_text::Tap;
use std::process::ExitCode;

fn main(rt: HostRuntime) -> ExitCode {
    let Ok(Some(command)) = asked(&rt) else {
        let _ = eprintln!(rt; "{USAGE}\n{TURNS}\n{MANUAL}");
        return ExitCode::from(2);
    };
    let mut output = Output::new(rt.stdout());
    let mut reader = Tap::new(rt.stdin());
    let mut writer = Tap::new(&mut output);
    let ended = carried_out(&rt, rt.alloc(), command, &mut reader, &mut writer);
    let mut errors = Tap::new(rt.stderr());
    ended.tell(rt.alloc(), &mut errors, command.name(), output.is_broken());
    ended.outcome.exit_code()
}
