//! What the program says of itself and of its commands.

ghost use Rattle.std.specs.Prelude.{◌≡◌};
ghost use Rattle.sciview.specs.CommandAnswer.{help_for, help_text};

use crate::verb::Verb;

/// How the program is called.
pub const USAGE: &str =
    "usage: sciview COMMAND [OPTIONS] [FILE]; COMMAND is order, explain, judge, check, packets, trace, lists, stats, chart, page, random, run, outcomes or allowed";

/// What stands below the usage line on standard error.
pub const MANUAL: &str = "sciview --help says what each command does. The manual is sciview(1).";

/// What `--version` writes.
pub const VERSION: &str = "sciview 0.1.0\n";

/// What `--help` writes.
pub const HELP: &str = "\
usage: sciview COMMAND [OPTIONS] [FILE]

  order      whether one order of all entries explains a log, or a cycle
  explain    what is wrong with a log, and what would be right
  judge      whether another machine's trace is coherent, and else why not
  run        the schedule of a script's run
  outcomes   how often each outcome of a script comes
  allowed    all outcomes that a script can have, and a schedule to each
  check      what a text is, or where and why it is none
  packets    the bytes of the packets that a schedule sends
  trace      what each event of a schedule does, or why it isn't enabled
  lists      the sharing lists behind a schedule's events
  stats      figures of a schedule
  chart      a picture of a schedule in SVG
  page       a page that steps through a schedule, or shows a log, in a browser
  random     a schedule that is drawn from a seed

  sciview COMMAND --help   the options of a command, and what it writes
  sciview --help           this text
  sciview --version        the program's name and version

Each command but random reads FILE to its end, or else standard input, which is
also the file `-`. Options stand in any order, each at most once, as `--line 3`
or `--line=3`. Each command writes standard output. If its input is refused, it
writes nothing there, and standard error says what is wrong.

The exit status is 0; or 1 if the log isn't sequentially consistent or isn't
lawful, if the trace isn't coherent or that is undecided, if a strict trace met
an event that isn't enabled, or if a run used up its turns; or 2 if the words,
the input or a number was refused, FILE can't be opened, or the output couldn't
be written.
";

/// What `order --help` writes.
pub const ORDER: &str = "\
usage: sciview order [--by-serial] [--show] [--json] [FILE]

Of a log: `sequentially consistent`, or a cycle of entries which shows that no
order makes the log sequentially consistent.

  --by-serial   each node's entries stand in the order by their serials, and
                not as in its log
  --show        the order follows
  --json        as one JSON object, and not in words
";

/// What `explain --help` writes.
pub const EXPLAIN: &str = "\
usage: sciview explain [--json] [FILE]

Of each line of memory of a log that has a fault: the entry at fault, what one
memory of one thread gives there, and the entries around it.

  --json        as one JSON object, and not in words
";

/// What `judge --help` writes.
pub const JUDGE: &str = "\
usage: sciview judge [--times] [--order] [--limit K] [--log] [FILE]

Of a trace of another machine, which has no versions: `coherent`,
`undecided at A`, or `not coherent at A` with the operations that show it, each
with its line. A coherent trace has a second line: `versions forced` if no other
versions explain it, `versions free` if others do, or `versions undecided`. The
text is in the notation of Axe: `0: M[8] := 5 @ 100:110` is a store,
`1: M[8] == 5` a load, `final M[8] == 5` the last word at an address.

  --times       what ended before another operation at its address began has to
                stand before it
  --order       a third line: `sequentially consistent`, `order unknown`, or
                `not sequentially consistent`
  --limit K     a search makes at most K choices (1,000,000 if it isn't said): the
                search for an order, and the one at an address where a word is
                written twice
  --log         the log of a coherent trace in place of the verdict, with versions
                that explain it; and on standard error the address of each line
";

/// What `run --help` writes.
pub const RUN: &str = "\
usage: sciview run [--seed S] [--in-order] [--turns T] [FILE]

Of a script: the schedule of a run of it by the policy. The nodes take a turn
each in a circle; a node has up to four operations pending.

  --seed S      the order of the turns is drawn from the seed S
  --in-order    a node has one operation pending
  --turns T     the run takes at most T turns all together
";

/// What `outcomes --help` writes.
pub const OUTCOMES: &str = "\
usage: sciview outcomes [--runs R] [--seed S | --threads] [--in-order] [--all]
                        [--json] [FILE]

Of a script: how often each outcome of it comes in many runs: what each load and
lock operation replied, the words at the end, how many runs gave it, the seed of
the first of them, and whether one memory explains it in the order of the script.
A condition in the script's last line is answered by Yes, No or Not seen.

  --runs R      this many runs, 1 to 1,000,000, and not 1,000
  --seed S      by the seeds from S on, and not from 1
  --threads     by threads, and not by seeds
  --in-order    a node has one operation pending, and not up to four
  --all         list each other outcome that a run can have, too, with count 0;
                a condition is answered for all of them, by Yes or No
  --json        as one JSON object, and not in lines
";

/// What `allowed --help` writes.
pub const ALLOWED: &str = "\
usage: sciview allowed [--in-order] [--show K] [FILE]

Of a script: each outcome that a run of it can have, whatever takes the turns:
what each load and lock operation replied, the words at the end, and whether a
run in the order of the script can have it. A condition in the script's last line,
as 'exists 0:1=0 and 1:1=0', is answered by Yes or No.

  --in-order    a node has one operation pending, and not up to four
  --show K      the schedule of a run with the outcome of line K, and no lines
";

/// What `check --help` writes.
pub const CHECK: &str = "\
usage: sciview check [FILE]

Of a script, a schedule or a log: which of these it is, and its size; or, on
standard error, where and why it is none: the line, the column, what was
expected there, and what stands there.
";

/// What `packets --help` writes.
pub const PACKETS: &str = "\
usage: sciview packets [FILE]

Of a schedule: the bytes of all packets that it sends, one after another, which
`scimem decode` reads.
";

/// What `trace --help` writes.
pub const TRACE: &str = "\
usage: sciview trace [--json] [--strict] [--line L] [FILE]

Of a schedule: what each event does, or why it isn't enabled.

  --json        as a JSON object on each line, and not in words
  --strict      up to the first event that isn't enabled
  --line L      of the events about the line L, 0 to 63, alone
";

/// What `lists --help` writes.
pub const LISTS: &str = "\
usage: sciview lists [--line L] [FILE]

Of a schedule, behind each event that may have changed the sharing list of a
line: the line's number, the list, the node that may change the line, and the
line's last contents.

  --line L      of the line L, 0 to 63, alone
";

/// What `stats --help` writes.
pub const STATS: &str = "\
usage: sciview stats [--line L] [--node N] [--json] [FILE]
       sciview stats --transitions [--json] [FILE]..

Figures of a schedule, one on each line: events of each kind, packets of each
command, what happened to each line of memory, and what each node did.

  --line L      of the lines what happened to the line L, 0 to 63, alone
  --node N      of the nodes what the node N, 0 to 15, did alone
  --json        as one JSON object, and not in lines
  --transitions
                in place of these, how often each pair of a state and what it met
                came (an ask, a request that was served, an answer, an operation),
                and which pairs of the tables never did; each FILE is a schedule,
                and their counts are added up
";

/// What `chart --help` writes.
pub const CHART: &str = "\
usage: sciview chart [--line L] [--events FIRST LAST] [FILE]

A message sequence chart of the events of a schedule in SVG.

  --line L      of the line of memory L, 0 to 63, alone
  --events FIRST LAST
                of the events on the schedule's lines FIRST to LAST alone
";

/// What `page --help` writes.
pub const PAGE: &str = "\
usage: sciview page [--line L] [--events FIRST LAST] [--title T] [FILE]

A page of HTML for a browser, with no other file and no request. Of a schedule it
steps through the events: the states of the nodes, the sharing lists, the packets
under way, and what each event did. Of a log it shows the entries by node, and
what explain and order say of them: a cycle, an order, or what is wrong. It has
at most 10,000 events or entries, and 5,000,000 bytes.

  --line L      of the events about the line L, 0 to 63, alone
  --events FIRST LAST
                of the events on the schedule's lines FIRST to LAST alone
  --title T     with the title T, the first word that belongs to no option
";

/// What `random --help` writes.
pub const RANDOM: &str = "\
usage: sciview random N M C EVENTS SEED [--dead K]

A schedule of EVENTS events, at most 500,000, of a machine of N nodes, M lines
and C slots a node. The events are drawn from the seed, each enabled when it
comes. No file and no standard input is read.

  --dead K      about K in a hundred, 0 to 100, are drawn from all events,
                enabled or not
";

/// What the program says of a command, or of all.
pub fn help_of(verb: Option<Verb>) -> &'static str
    ensures { result.now ≡ help_for verb }
{
    match verb {
        None => HELP,
        Some(verb) => verb.help(),
    }
}

impl Verb {
    /// How the command is called, and what it writes.
    pub fn help(self) -> &'static str
        ensures { result.now ≡ help_text self }
    {
        match self {
            Verb::Order => ORDER,
            Verb::Explain => EXPLAIN,
            Verb::Judge => JUDGE,
            Verb::Run => RUN,
            Verb::Outcomes => OUTCOMES,
            Verb::Allowed => ALLOWED,
            Verb::Check => CHECK,
            Verb::Packets => PACKETS,
            Verb::Trace => TRACE,
            Verb::Lists => LISTS,
            Verb::Stats => STATS,
            Verb::Chart => CHART,
            Verb::Page => PAGE,
            Verb::Random => RANDOM,
        }
    }

    /// How the command is called, which is what its help says before the first empty line.
    pub fn usage(self) -> &'static str {
        let help = self.help();
        match help.split_once("\n\n") {
            Some((usage, _)) => usage,
            None => help,
        }
    }
}
