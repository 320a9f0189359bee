//! The options by name.

ghost use Rattle.std.specs.Prelude.{◌≡◌, ◌↔◌, Some};
ghost use Rattle.sci_options.specs.Options.{option_word};
ghost use Rattle.sci_options.specs.declared.option_name.OptionName.{OptionName};

/// An option of some command.
#[derive(Clone, Copy, PartialEq, Eq)]
pub enum OptionName {
    /// What never came, too.
    AllOutcomes,
    /// Each node's entries by their serials.
    BySerial,
    /// How many of a hundred events may be any events.
    Dead,
    /// The first and the last line of a text.
    Events,
    /// One operation at a time.
    InOrder,
    /// One JSON object a line.
    Json,
    /// How far a search goes.
    Limit,
    /// A line of memory.
    Line,
    /// The log in place of a verdict.
    Log,
    /// A node.
    Node,
    /// Whether one order explains all.
    Order,
    /// How many runs.
    Runs,
    /// The seed of what is drawn.
    Seed,
    /// What explains the answer, too.
    Show,
    /// Up to the first event that isn't enabled.
    Strict,
    /// One thread a node.
    Threads,
    /// By the times that operations took.
    Times,
    /// With a title.
    Title,
    /// How often each pair of a state and what it met came.
    Transitions,
    /// At most how many turns.
    Turns,
}

impl OptionName {
    /// The option that a word names. None if it names none.
    pub fn of(word: &str) -> Option<OptionName>
        ensures { (name : OptionName) → (result ≡ Some name) ↔ (word.now ≡ option_word name) }
    {
        match word {
            "--all" => Some(OptionName::AllOutcomes),
            "--by-serial" => Some(OptionName::BySerial),
            "--dead" => Some(OptionName::Dead),
            "--events" => Some(OptionName::Events),
            "--in-order" => Some(OptionName::InOrder),
            "--json" => Some(OptionName::Json),
            "--limit" => Some(OptionName::Limit),
            "--line" => Some(OptionName::Line),
            "--log" => Some(OptionName::Log),
            "--node" => Some(OptionName::Node),
            "--order" => Some(OptionName::Order),
            "--runs" => Some(OptionName::Runs),
            "--seed" => Some(OptionName::Seed),
            "--show" => Some(OptionName::Show),
            "--strict" => Some(OptionName::Strict),
            "--threads" => Some(OptionName::Threads),
            "--times" => Some(OptionName::Times),
            "--title" => Some(OptionName::Title),
            "--transitions" => Some(OptionName::Transitions),
            "--turns" => Some(OptionName::Turns),
            _ => None,
        }
    }

    /// The word that names the option.
    pub fn word(self) -> &'static str
        ensures { result.now ≡ option_word self }
    {
        match self {
            OptionName::AllOutcomes => "--all",
            OptionName::BySerial => "--by-serial",
            OptionName::Dead => "--dead",
            OptionName::Events => "--events",
            OptionName::InOrder => "--in-order",
            OptionName::Json => "--json",
            OptionName::Limit => "--limit",
            OptionName::Line => "--line",
            OptionName::Log => "--log",
            OptionName::Node => "--node",
            OptionName::Order => "--order",
            OptionName::Runs => "--runs",
            OptionName::Seed => "--seed",
            OptionName::Show => "--show",
            OptionName::Strict => "--strict",
            OptionName::Threads => "--threads",
            OptionName::Times => "--times",
            OptionName::Title => "--title",
            OptionName::Transitions => "--transitions",
            OptionName::Turns => "--turns",
        }
    }
}
