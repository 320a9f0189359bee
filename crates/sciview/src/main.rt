//! The program `sciview`: it reads a file or standard input, and writes standard output.
#![tactic(auto)]

mod carrying_out;
mod choice;
mod complaint;
mod help;
mod verb;

use carrying_out::{Kept, carried_out};
use choice::{Choice, choice_of};
use complaint::Complaint;
use sci_command::{Ended, Outcome, Output};
use sci_statistics::{Coverage, add_transitions};
use sci_text::Tap;
use std::process::ExitCode;
use std::rt::Env;
use std::{env, fs, io};

/// The words of the command line, the program's own name left out. It fails if they can't be read, or memory is refused.
fn words_of(rt: &(impl Env + AllocGlobal)) -> io::Result<Vec<String>> {
    Ok(env::args(rt)?.skip(1).collect(rt.alloc())?)
}

/// Says what is wrong with the words of the command line.
fn complain(rt: &HostRuntime, complaint: Complaint) -> ExitCode {
    let _ = eprintln!(rt; "{complaint}");
    ExitCode::from(2)
}

/// Says on standard error that a file can't be opened.
fn tell_closed(rt: &HostRuntime, choice: &Choice, file: &str) -> ExitCode {
    let _ = eprintln!(rt; "{}: {file} can't be opened", choice.command.name());
    ExitCode::from(2)
}

/// Says on standard error which address each line of a log's memory is.
fn tell_lines(rt: &HostRuntime, name: &str, addresses: &[u64]) {
    for (line, address) in addresses.iter().enumerate() {
        let _ = eprintln!(rt; "{name}: line {line} of memory is address {address}");
    }
}

/// Adds the transitions of a schedule to those that are kept, and says how that ended.
fn add_schedule<R: io::Read + Drop>(rt: &HostRuntime, kept: &mut Kept, input: R) -> Ended {
    let mut reader = Tap::new(input);
    match add_transitions(rt.alloc(), &mut kept.coverage, &mut reader) {
        Ok(dead) => Ended {
            outcome: Outcome::Done,
            refusal: None,
            dead,
        },
        Err(refusal) => Ended {
            outcome: Outcome::Refused,
            refusal: Some(refusal),
            dead: None,
        },
    }
}

/// Adds the transitions of the schedules in files to those that are kept, and says on standard error what it has to say of
/// them. If a file can't be opened or is refused, this is the status with which the program ends.
fn add_earlier(
    rt: &HostRuntime,
    choice: &Choice,
    files: &[&str],
    kept: &mut Kept,
) -> Result<(), ExitCode> {
    for file in files {
        let ended = if *file == "-" {
            add_schedule(rt, kept, rt.stdin())
        } else {
            match fs::open(rt, file) {
                Ok(input) => add_schedule(rt, kept, input),
                Err(_) => return Err(tell_closed(rt, choice, file)),
            }
        };
        tell(rt, &ended, choice, Some(*file), false);
        if let Outcome::Refused = ended.outcome {
            return Err(ended.outcome.exit_code());
        }
    }
    Ok(())
}

/// Says on standard error how a command ended. If it reads several files, the message names the file, unless memory is
/// refused for that.
fn tell(rt: &HostRuntime, ended: &Ended, choice: &Choice, file: Option<&str>, is_broken: bool) {
    let command = choice.command.name();
    let mut errors = Tap::new(rt.stderr());
    if let (Some(file), true) = (file, choice.names.files.len() > 1) {
        if let Ok(name) = format!(in rt.alloc(); "{command}: {file}") {
            ended.tell(rt.alloc(), &mut errors, &name, is_broken);
            return;
        }
    }
    ended.tell(rt.alloc(), &mut errors, command, is_broken);
}

fn main(rt: HostRuntime) -> ExitCode {
    let Ok(words) = words_of(&rt) else {
        return complain(&rt, Complaint::NoCommand);
    };
    let choice = match choice_of(rt.alloc(), &words) {
        Ok(choice) => choice,
        Err(complaint) => return complain(&rt, complaint),
    };
    let mut kept = Kept {
        lines: Vec::new(rt.alloc()),
        coverage: Coverage::none(),
    };
    let files: &[&str] = &choice.names.files;
    let (last, earlier) = match files.split_last() {
        Some((last, earlier)) => (Some(*last), earlier),
        None => (None, files),
    };
    if let Err(status) = add_earlier(&rt, &choice, earlier, &mut kept) {
        return status;
    }
    let mut output = Output::new(rt.stdout());
    let mut writer = Tap::new(&mut output);
    let ended = match last {
        Some("-") | None => {
            let mut reader = Tap::new(rt.stdin());
            carried_out(
                &rt,
                rt.alloc(),
                &choice,
                &mut reader,
                &mut writer,
                &mut kept,
            )
        }
        Some(file) => {
            let Ok(input) = fs::open(&rt, file) else {
                return tell_closed(&rt, &choice, file);
            };
            let mut reader = Tap::new(input);
            carried_out(
                &rt,
                rt.alloc(),
                &choice,
                &mut reader,
                &mut writer,
                &mut kept,
            )
        }
    };
    tell(&rt, &ended, &choice, last, output.is_broken());
    if let Outcome::Done = ended.outcome {
        tell_lines(&rt, choice.command.name(), &kept.lines);
    }
    ended.outcome.exit_code()
}
