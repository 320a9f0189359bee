//! How a command ends.

use std::process::ExitCode;

/// How a command ends.
#[derive(Clone, Copy, Debug, PartialEq, Eq)]
pub enum Outcome {
    /// It did what was asked.
    Done,
    /// It did what was asked, and found what isn't lawful.
    Unlawful,
    /// It refused its input, or could not write.
    Refused,
}

impl Outcome {
    ghost use Rattle.std.specs.{Prelude.{◌≡◌}, Process.{exit_status}};
    ghost use Rattle.sci_command.specs.Status.{status_of};

    /// The exit status of the program: 0 for Done, 1 for Unlawful and 2 for Refused.
    pub fn exit_code(self) -> ExitCode
        ensures { exit_status result ≡ status_of self }
    {
        ExitCode::from(match self {
            Outcome::Done => 0,
            Outcome::Unlawful => 1,
            Outcome::Refused => 2,
        })
    }
}
