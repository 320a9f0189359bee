//! The commands by their words, and the table of the options that each takes.

ghost use Rattle.std.specs.Prelude.{◌≡◌, ◌↔◌, Some};
ghost use Rattle.sciview.specs.Choice.{options_of, verb_word};
ghost use Rattle.sciview.specs.declared.verb.Verb.{Verb};

use sci_options::{Argument, OptionName, OptionRow};
use sci_outcomes::MAX_RUNS;
use sci_words::{MAX_LINES, MAX_NODES};

/// A command, with no options yet.
#[derive(Clone, Copy)]
pub enum Verb {
    /// Whether a log is sequentially consistent.
    Order,
    /// What is wrong with a log.
    Explain,
    /// Whether a trace without versions is coherent.
    Judge,
    /// The schedule of a script's run.
    Run,
    /// The outcomes of a script's runs.
    Outcomes,
    /// All outcomes that a script's runs can have.
    Allowed,
    /// Which kind of text the input is.
    Check,
    /// The packets that a schedule sends.
    Packets,
    /// What each event of a schedule does.
    Trace,
    /// The sharing lists of a schedule.
    Lists,
    /// Figures of a schedule.
    Stats,
    /// A chart of a schedule.
    Chart,
    /// A page that steps through a schedule, or shows a log.
    Page,
    /// A schedule that is drawn by chance.
    Random,
}

/// A row of the table of options: of an option alone, of one with a number within limits, or of one with another argument.
macro_rules! option_row {
    ($name:ident) => {
        option_row!($name, Argument::Nothing)
    };
    ($name:ident, $least:literal..=$greatest:expr) => {
        option_row!(
            $name,
            Argument::Number {
                least: $least,
                greatest: $greatest,
            }
        )
    };
    ($name:ident, $argument:expr) => {
        OptionRow {
            name: OptionName::$name,
            argument: $argument,
        }
    };
}

const BY_SERIAL: OptionRow = option_row!(BySerial);

const DEAD: OptionRow = option_row!(Dead, 0..=100);

const EVENTS: OptionRow = option_row!(Events, Argument::TwoNumbers);

const ALL_OUTCOMES: OptionRow = option_row!(AllOutcomes);

const IN_ORDER: OptionRow = option_row!(InOrder);

const JSON: OptionRow = option_row!(Json);

const LIMIT: OptionRow = option_row!(Limit, 0..=u64::MAX);

const LINE: OptionRow = option_row!(Line, Argument::Place { count: MAX_LINES });

const LOG: OptionRow = option_row!(Log);

const NODE: OptionRow = option_row!(Node, Argument::Place { count: MAX_NODES });

const ORDER: OptionRow = option_row!(Order);

const RUNS: OptionRow = option_row!(Runs, 1..=MAX_RUNS);

const SEED: OptionRow = option_row!(Seed, 0..=u64::MAX);

const SHOW: OptionRow = option_row!(Show);

const SHOW_ROW: OptionRow = option_row!(Show, 1..=u64::MAX);

const STRICT: OptionRow = option_row!(Strict);

const THREADS: OptionRow = option_row!(Threads);

const TIMES: OptionRow = option_row!(Times);

const TITLE: OptionRow = option_row!(Title);

const TRANSITIONS: OptionRow = option_row!(Transitions);

const TURNS: OptionRow = option_row!(Turns, 0..=u64::MAX);

impl Verb {
    /// The command that a word chooses. None if it chooses none.
    pub fn of(word: &str) -> Option<Verb>
        ensures { (verb : Verb) → (result ≡ Some verb) ↔ (word.now ≡ verb_word verb) }
    {
        match word {
            "order" => Some(Verb::Order),
            "explain" => Some(Verb::Explain),
            "judge" => Some(Verb::Judge),
            "run" => Some(Verb::Run),
            "outcomes" => Some(Verb::Outcomes),
            "allowed" => Some(Verb::Allowed),
            "check" => Some(Verb::Check),
            "packets" => Some(Verb::Packets),
            "trace" => Some(Verb::Trace),
            "lists" => Some(Verb::Lists),
            "stats" => Some(Verb::Stats),
            "chart" => Some(Verb::Chart),
            "page" => Some(Verb::Page),
            "random" => Some(Verb::Random),
            _ => None,
        }
    }

    /// The options that the command takes.
    pub fn options(self) -> &'static [OptionRow]
        ensures { result.now ≡ options_of self }
    {
        match self {
            Verb::Order => &[BY_SERIAL, SHOW, JSON],
            Verb::Judge => &[TIMES, ORDER, LIMIT, LOG],
            Verb::Run => &[SEED, IN_ORDER, TURNS],
            Verb::Outcomes => &[RUNS, SEED, THREADS, IN_ORDER, ALL_OUTCOMES, JSON],
            Verb::Allowed => &[IN_ORDER, SHOW_ROW],
            Verb::Trace => &[JSON, STRICT, LINE],
            Verb::Lists => &[LINE],
            Verb::Stats => &[TRANSITIONS, JSON, LINE, NODE],
            Verb::Chart => &[LINE, EVENTS],
            Verb::Page => &[LINE, EVENTS, TITLE],
            Verb::Random => &[DEAD],
            Verb::Explain => &[JSON],
            Verb::Check | Verb::Packets => &[],
        }
    }

    /// The program and the word of the command, as messages name it.
    pub fn name(self) -> &'static str {
        match self {
            Verb::Order => "sciview order",
            Verb::Explain => "sciview explain",
            Verb::Judge => "sciview judge",
            Verb::Run => "sciview run",
            Verb::Outcomes => "sciview outcomes",
            Verb::Allowed => "sciview allowed",
            Verb::Check => "sciview check",
            Verb::Packets => "sciview packets",
            Verb::Trace => "sciview trace",
            Verb::Lists => "sciview lists",
            Verb::Stats => "sciview stats",
            Verb::Chart => "sciview chart",
            Verb::Page => "sciview page",
            Verb::Random => "sciview random",
        }
    }
}
