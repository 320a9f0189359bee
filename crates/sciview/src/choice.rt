//! What the words of the command line choose.

ghost use Rattle.std.specs.Prelude.{◌≡◌, ◌↔◌, ℕ, IfSome, IsTrue, List, [], ◌∷◌, Option, None, Some, codes, map, option_map};
ghost use Rattle.sciview.specs.declared.choice.Command.{Command};
ghost use Rattle.sciview.specs.Choice.{Asks, Chooses, ChoosesOf, FitsWalk, IsHelp, Named, asked_events, asked_issuing, asked_order, asked_turns};
ghost use Rattle.sciview.specs.Choice.{AreFiles, IsChosenBy, command_of, IsNamed, no_names, reads_several, shown_in, shown_names, stats_command, walk_words};
ghost use Rattle.sci_random_schedules.specs.declared.random.Walk.{Walk};

use crate::complaint::{Complaint, Problem};
use crate::verb::Verb;
use sci_allowed::AllowedRequest;
use sci_axe::JudgeRequest;
use sci_charts::{ChartRequest, TextLines};
use sci_command::texts_of;
use sci_drive::Issuing;
use sci_options::{Given, OptionName, read_words};
use sci_outcomes::{OutcomesRequest, RunRequest, Turns};
use sci_random_schedules::Walk;
use sci_reports::{NodeOrder, OrderRequest};
use sci_statistics::StatsRequest;
use sci_text::whole_number;
use sci_traces::TraceRequest;
use std::alloc::Global;

/// What the program is asked to do.
#[derive(Clone, Copy)]
pub enum Command {
    /// Write whether a log is sequentially consistent.
    Order(OrderRequest),
    /// Write what is wrong with a log.
    Explain { json: bool },
    /// Write which kind of text the input is, or why it is none.
    Check,
    /// Write whether a trace without versions is coherent.
    Judge(JudgeRequest),
    /// Write the bytes of the packets that a schedule sends.
    Packets,
    /// Write what each event of a schedule does.
    Trace(TraceRequest),
    /// Write the sharing list behind each event of a schedule that may have changed it: of one line, 0 to 63, or of all.
    Lists { line: Option<u8> },
    /// Write figures of a schedule.
    Stats(StatsRequest),
    /// Write how often each pair of a state and what it met came in schedules, and which never did.
    Transitions { json: bool },
    /// Write a chart of a schedule.
    Chart(ChartRequest),
    /// Write a page that steps through a schedule, or shows a log.
    Page(ChartRequest),
    /// Write a schedule that is drawn by chance; `dead` in a hundred of its events may be any events.
    Random { walk: Walk, dead: Option<u64> },
    /// Write the schedule of a script's run.
    Run(RunRequest),
    /// Write the outcomes of a script's runs.
    Outcomes(OutcomesRequest),
    /// Write all outcomes that a script's runs can have.
    Allowed(AllowedRequest),
    /// Write what the program knows, or how one command is called and what it does.
    Help(Option<Verb>),
    /// Write which version of the program it is.
    Version,
}

/// The words that a command takes as they are.
#[derive(Drop)]
pub struct Names<'a> {
    /// The title of a page.
    pub title: Option<&'a str>,
    /// The files that the command reads. None is standard input.
    pub files: Vec<&'a str>,
}

impl Names<'_> {
    /// No words.
    fn none(alloc: Global) -> Self
        ensures { shown_names result ≡ no_names }
    {
        Names {
            title: None,
            files: Vec::new(alloc),
        }
    }
}

/// What words choose: a command, and the words that it takes as they are.
#[derive(Drop)]
pub struct Choice<'a> {
    pub command: Command,
    pub names: Names<'a>,
}

impl Choice<'_> {
    /// The command alone.
    fn of(alloc: Global, command: Command) -> Self
        ensures { shown_in result ≡ (command, no_names) }
    {
        Choice {
            command,
            names: Names::none(alloc),
        }
    }
}

impl Command {
    /// The program and the word that chooses the command, as its messages name it.
    pub fn name(self) -> &'static str {
        match self {
            Command::Order(_) => Verb::Order.name(),
            Command::Explain { .. } => Verb::Explain.name(),
            Command::Check => Verb::Check.name(),
            Command::Judge(_) => Verb::Judge.name(),
            Command::Packets => Verb::Packets.name(),
            Command::Trace(_) => Verb::Trace.name(),
            Command::Lists { .. } => Verb::Lists.name(),
            Command::Stats(_) | Command::Transitions { .. } => Verb::Stats.name(),
            Command::Chart(_) => Verb::Chart.name(),
            Command::Page(_) => Verb::Page.name(),
            Command::Random { .. } => Verb::Random.name(),
            Command::Run(_) => Verb::Run.name(),
            Command::Outcomes(_) => Verb::Outcomes.name(),
            Command::Allowed(_) => Verb::Allowed.name(),
            Command::Help(_) | Command::Version => "sciview",
        }
    }
}

/// How the entries of a node stand in an order, as options say.
fn order_of(given: &Given) -> NodeOrder
    ensures { result ≡ asked_order given.now.settings.items }
{
    if given.has(OptionName::BySerial) {
        NodeOrder::BySerial
    } else {
        NodeOrder::Logged
    }
}

/// When operations are submitted, as options say.
fn issuing_of(given: &Given) -> Issuing
    ensures { result ≡ asked_issuing given.now.settings.items }
{
    if given.has(OptionName::InOrder) {
        Issuing::InOrder
    } else {
        Issuing::Ahead
    }
}

/// In which order nodes take turns, as options say. None if they say two orders.
fn turns_of(given: &Given) -> Option<Option<Turns>>
    ensures { result ≡ asked_turns given.now.settings.items }
{
    match (
        given.number(OptionName::Seed),
        given.has(OptionName::Threads),
    ) {
        (Some(_), true) => None,
        (Some(seed), false) => Some(Some(Turns::Drawn { seed })),
        (None, true) => Some(Some(Turns::Threads)),
        (None, false) => Some(None),
    }
}

/// The lines of a schedule that options say.
fn events_of(given: &Given) -> Option<TextLines>
    ensures { result ≡ asked_events given.now.settings.items }
{
    let (first, last) = given.two_numbers(OptionName::Events)?;
    Some(TextLines { first, last })
}

/// What options ask of `stats`. None if they ask for the transitions of one line or of one node.
fn stats_of(given: &Given) -> Option<Command>
    ensures { result ≡ stats_command given.now.settings.items }
{
    let json = given.has(OptionName::Json);
    let line = given.place(OptionName::Line);
    let node = given.place(OptionName::Node);
    if !given.has(OptionName::Transitions) {
        return Some(Command::Stats(StatsRequest { line, node, json }));
    }
    match (line, node) {
        (None, None) => Some(Command::Transitions { json }),
        _ => None,
    }
}

/// Whether a command reads several files, as options say.
fn reads_several(verb: Verb, given: &Given) -> bool
    ensures { result ≡ reads_several verb given.now.settings.items }
{
    match verb {
        Verb::Stats => given.has(OptionName::Transitions),
        _ => false,
    }
}

/// What options ask of a command that reads a text. None if they ask for two orders of turns, or for the transitions of one
/// line or node, or the command is `random`.
fn command_of(verb: Verb, given: &Given) -> Option<Command>
    ensures { result ≡ command_of verb given.now.settings.items }
{
    let line = given.place(OptionName::Line);
    let command = match verb {
        Verb::Order => Command::Order(OrderRequest {
            keeps: order_of(given),
            shows: given.has(OptionName::Show),
            json: given.has(OptionName::Json),
        }),
        Verb::Explain => Command::Explain {
            json: given.has(OptionName::Json),
        },
        Verb::Judge => Command::Judge(JudgeRequest {
            timed: given.has(OptionName::Times),
            ordered: given.has(OptionName::Order),
            limit: given.number(OptionName::Limit),
            logs: given.has(OptionName::Log),
        }),
        Verb::Run => Command::Run(RunRequest {
            seed: given.number(OptionName::Seed),
            issuing: issuing_of(given),
            turns: given.number(OptionName::Turns),
        }),
        Verb::Outcomes => Command::Outcomes(OutcomesRequest {
            runs: given.number(OptionName::Runs),
            turns: turns_of(given)?,
            issuing: issuing_of(given),
            all: given.has(OptionName::AllOutcomes),
            json: given.has(OptionName::Json),
        }),
        Verb::Allowed => Command::Allowed(AllowedRequest {
            issuing: issuing_of(given),
            show: given.number(OptionName::Show),
        }),
        Verb::Check => Command::Check,
        Verb::Packets => Command::Packets,
        Verb::Trace => Command::Trace(TraceRequest {
            json: given.has(OptionName::Json),
            strict: given.has(OptionName::Strict),
            line,
        }),
        Verb::Lists => Command::Lists { line },
        Verb::Stats => stats_of(given)?,
        Verb::Chart => Command::Chart(ChartRequest {
            line,
            events: events_of(given),
        }),
        Verb::Page => Command::Page(ChartRequest {
            line,
            events: events_of(given),
        }),
        Verb::Random => return None,
    };
    Some(command)
}

/// The walk that five words say, each a number below 2^64. None if they say none.
#[tactic(auto, unfolding(crate::specs::Choice::walk_words))]
fn walk_of(words: &[&str]) -> Option<Walk>
    ensures { (walk : Walk) → (result ≡ Some walk) ↔
        ((map (λ word. word.now) words.now ≡ walk_words walk) × FitsWalk walk) }
{
    let [nodes, lines, slots, events, seed] = words else {
        return None;
    };
    Some(Walk {
        nodes: whole_number(nodes.as_bytes())?,
        lines: whole_number(lines.as_bytes())?,
        slots: whole_number(slots.as_bytes())?,
        events: whole_number(events.as_bytes())?,
        seed: whole_number(seed.as_bytes())?,
    })
}

/// Words as files, if a command reads as many: several, or one at most. None if it doesn't.
fn files_of<'a>(several: bool, words: Vec<&'a str>) -> Option<Vec<&'a str>>
    ensures some { IfSome result (λ files. (files ≡ words.entry)
        × AreFiles several (map (λ word. word.now) files.items)) }
    ensures none { result ≡ None → AreFiles several (map (λ word. word.now) words.entry.items) → ⊥ }
{
    if !several && words.len() > 1 {
        return None;
    }
    Some(words)
}

/// What words name: a title, if there is one, and then files. None if they name something else.
fn names_of<'a>(titled: bool, several: bool, words: Vec<&'a str>) -> Option<Names<'a>>
    ensures { (named : Named) → (option_map shown_names result ≡ Some named) ↔
        IsNamed titled several (map (λ word. word.now) words.entry.items) named }
{
    let mut words = words;
    if !titled {
        let files = files_of(several, words)?;
        return Some(Names { title: None, files });
    }
    if words.is_empty() {
        return None;
    }
    let title = words.remove(0);
    let files = files_of(several, words)?;
    Some(Names {
        title: Some(title),
        files,
    })
}

/// What options and words that stand alone ask of a command. None if they ask nothing that it does.
fn asked_of<'a>(alloc: Global, verb: Verb, given: Given<'a>) -> Option<Choice<'a>>
    ensures { (command : Command) (named : Named)
        → (option_map shown_in result ≡ Some (command, named)) ↔
        Asks verb given.entry.settings.items (map (λ word. word.now) given.entry.alone.items) command named }
{
    if let Verb::Random = verb {
        let walk = walk_of(&given.alone)?;
        let dead = given.number(OptionName::Dead);
        return Some(Choice::of(alloc, Command::Random { walk, dead }));
    }
    let command = command_of(verb, &given)?;
    let titled = given.has(OptionName::Title);
    let several = reads_several(verb, &given);
    let names = names_of(titled, several, given.alone)?;
    Some(Choice { command, names })
}

/// Whether words are one that asks for help.
fn asks_help(words: &[&str]) -> bool
    ensures { IsTrue result ↔ IsHelp (map (λ word. word.now) words.now) }
{
    matches!(words, ["--help"] | ["-h"])
}

/// Whether words are one that asks for the version.
fn asks_version(words: &[&str]) -> bool
    ensures { IsTrue result ↔ (map (λ word. word.now) words.now ≡ codes "--version" ∷ []) }
{
    matches!(words, ["--version"])
}

/// The first word, and those behind it. None if there is none.
fn first_of<'w, 'a>(words: &'w [&'a str]) -> Option<(&'a str, &'w [&'a str])>
    ensures some { IfSome result (λ x. map (λ word. word.now) words.now
        ≡ x.0.now ∷ map (λ word. word.now) x.1.now) }
    ensures none { result ≡ None → map (λ word. word.now) words.now ≡ [] }
{
    let (word, rest) = words.split_first()?;
    Some((*word, rest))
}

/// What the words behind a command choose, or what is wrong with them.
fn chosen_of<'a>(alloc: Global, verb: Verb, words: &[&'a str]) -> Result<Choice<'a>, Complaint<'a>>
    ensures { IsChosenBy (ChoosesOf verb (map (λ word. word.now) words.now)) result }
{
    if asks_help(words) {
        return Ok(Choice::of(alloc, Command::Help(Some(verb))));
    }
    let given = match read_words(alloc, verb.options(), words) {
        Ok(given) => given,
        Err(wrong) => return Err(Complaint::of_word(verb, wrong)),
    };
    let problem = Problem::of(verb, &given);
    match asked_of(alloc, verb, given) {
        Some(choice) => Ok(choice),
        None => Err(Complaint::Words(verb, problem)),
    }
}

/// What words choose, or what is wrong with them.
fn chosen<'a>(alloc: Global, words: &[&'a str]) -> Result<Choice<'a>, Complaint<'a>>
    ensures { IsChosenBy (Chooses (map (λ word. word.now) words.now)) result }
{
    if asks_help(words) {
        return Ok(Choice::of(alloc, Command::Help(None)));
    }
    if asks_version(words) {
        return Ok(Choice::of(alloc, Command::Version));
    }
    let Some((word, rest)) = first_of(words) else {
        return Err(Complaint::NoCommand);
    };
    match Verb::of(word) {
        Some(verb) => chosen_of(alloc, verb, rest),
        None => Err(Complaint::NoCommand),
    }
}

/// The command that the words of the command line choose, the program's own name left out, and the file that it reads; or what
/// is wrong with the words, or that there is no memory for them.
pub fn choice_of(alloc: Global, words: &[String]) -> Result<Choice<'_>, Complaint<'_>>
    ensures { IsChosenBy (Chooses (map (λ word. word.bytes.items) words.now)) result }
{
    match texts_of(alloc, words) {
        Ok(texts) => chosen(alloc, &texts),
        Err(_) => Err(Complaint::Memory),
    }
}
