//! The commands, each by its word.

ghost use Rattle.std.specs.Prelude.{◌≡◌, false, None};
ghost use Rattle.sci_text.specs.Tap.{has_failed, is_called_again, tapped};
ghost use Rattle.sci_command.specs.{Answer.{IsAnswerAlone}, Writing.{HasCarriedOut, HasWritten}, declared.outcome.Outcome.{Outcome}};
ghost use Rattle.sciview.specs.CommandAnswer.{AreDeadOf, IsAnswerTo, KeepsLines};

use crate::choice::{Choice, Command};
use crate::help::{VERSION, help_of};
use sci_allowed::allowed;
use sci_axe::judge_trace;
use sci_charts::chart;
use sci_command::{Ended, Outcome, parted, show, write_answer};
use sci_outcomes::{outcomes_of, run};
use sci_pages::page;
use sci_random_schedules::random_schedule;
use sci_reports::{check, explain, order};
use sci_statistics::{Coverage, stats, transitions};
use sci_text::Tap;
use sci_traces::{lists, packets, trace};
use std::alloc::Global;
use std::io::{Read, Write};
use std::thread::Threads;

/// Writes words of the program's own.
fn show_words<W: Write>(writer: &mut Tap<W>, words: &str) -> Ended
    requires { has_failed writer.old ≡ false }
    ensures written { HasWritten (W.contents (tapped writer.old)) (W.contents (tapped writer.new))
        (has_failed writer.new) result.outcome
        (λ text outcome. (outcome ≡ Outcome.Refused → ⊥)
        × ((text ≡ words.now) × (outcome ≡ Outcome.Done))) }
    ensures refusal { result.refusal ≡ None }
    ensures dead { result.dead ≡ None }
    ensures again { is_called_again writer.new ≡ is_called_again writer.old }
{
    Ended {
        outcome: write_answer(writer, words.as_bytes(), Outcome::Done),
        refusal: None,
        dead: None,
    }
}

/// What a command keeps beside the text that it writes.
#[derive(Drop)]
pub struct Kept {
    /// The addresses of the lines of memory of the log of a trace.
    pub lines: Vec<u64>,
    /// How often each transition came in the schedules so far.
    pub coverage: Coverage,
}

/// Carries out a command: reads its input to the end, if it has one, and writes its answer, or nothing if the input is refused.
/// After the first read or write that fails nothing more is read or written. If it writes the log of a trace, the addresses of
/// the log's lines of memory are kept. The transitions of a schedule are added to those so far.
pub fn carried_out<T: Threads + Sync, R: Read, W: Write>(
    rt: &T,
    alloc: Global,
    choice: &Choice,
    reader: &mut Tap<R>,
    writer: &mut Tap<W>,
    kept: &mut Kept,
) -> Ended
    requires reader { has_failed reader.old ≡ false }
    requires writer { has_failed writer.old ≡ false }
    ensures answer { HasCarriedOut R.remaining W.contents reader.old reader.new writer.old writer.new
        result.outcome (IsAnswerAlone (IsAnswerTo kept.new.lines.items kept.old.coverage choice.now) result.refusal) }
    ensures lines { KeepsLines choice.now.command kept.old.lines.items kept.new.lines.items }
    ensures dead { AreDeadOf choice.now.command (R.remaining (tapped reader.old)) (has_failed reader.new)
        result.refusal result.dead }
{
    match choice.command {
        Command::Order(request) => show(writer, order(alloc, request, reader)),
        Command::Explain { json } => show(writer, explain(alloc, json, reader)),
        Command::Check => show(writer, check(alloc, reader)),
        Command::Judge(request) => show(
            writer,
            judge_trace(rt, alloc, request, reader, &mut kept.lines),
        ),
        Command::Packets => show(writer, packets(alloc, reader)),
        Command::Trace(request) => show(writer, trace(alloc, request, reader)),
        Command::Lists { line } => show(writer, lists(alloc, line, reader)),
        Command::Stats(request) => {
            let (answered, dead) = parted(stats(alloc, request, reader));
            show(writer, answered).beside(dead)
        }
        Command::Transitions { json } => {
            let (answered, dead) = parted(transitions(alloc, json, &mut kept.coverage, reader));
            show(writer, answered).beside(dead)
        }
        Command::Chart(request) => {
            let (answered, dead) = parted(chart(alloc, request, reader));
            show(writer, answered).beside(dead)
        }
        Command::Page(request) => { show(writer, page(alloc, request, choice.names.title, reader)) }
        Command::Random { walk, dead } => { show(writer, random_schedule(alloc, &walk, dead)) }
        Command::Run(request) => show(writer, run(alloc, request, reader)),
        Command::Outcomes(request) => { show(writer, outcomes_of(rt, alloc, request, reader)) }
        Command::Allowed(request) => show(writer, allowed(alloc, request, reader)),
        Command::Help(verb) => show_words(writer, help_of(verb)),
        Command::Version => show_words(writer, VERSION),
    }
}
