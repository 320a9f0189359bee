//! What is said on standard error of how a command ended.

ghost use Rattle.std.specs.{Prelude.{◌≡◌, ◌≤◌, ◌++◌, ℕ, List, None, Option, Some, false, length}, Io.KnownBytes.{Appends}};
ghost use Rattle.sci_text.specs.Tap.{has_failed, is_called_again, tapped};
ghost use Rattle.sci_command.specs.{Message.{dead_text, kind_said, message, note_text, place_text, whole_words}};
ghost use Rattle.sci_command.specs.Writing.{IsPrinted, WritesFront};

use crate::answer::Ended;
use crate::printer::{print_end, print_piece};
use crate::refusal::{Note, Refusal, word_of_fault};
use sci_core::DeadEvents;
use sci_text::{LineEnd, Tap, TextFault, TextFaultKind};
use std::alloc::Global;
use std::io::Write;

/// What is wrong with an input as a whole.
#[tactic(auto, unfolding(crate::specs::Message::whole_words))]
fn whole_words(kind: TextFaultKind) -> &'static str
    ensures words { result.now ≡ whole_words kind }
    ensures short { length result.now ≤ 64 }
{
    match kind {
        TextFaultKind::Syntax => "it isn't of the grammar",
        TextFaultKind::Range => "a number is out of range",
        TextFaultKind::TooMany => "the input has more than 134,217,728 bytes",
        TextFaultKind::Read => "the input can't be read",
        TextFaultKind::Write => "standard output can't be written",
        TextFaultKind::Memory => "out of memory",
    }
}

/// The line of a fault, if it is one of a line.
#[tactic(auto, unfolding(crate::specs::Message::place_text))]
fn place(line: usize) -> LineEnd
    ensures { result ≡ place_text line }
{
    let mut place = LineEnd::new();
    if line == 0 {
        place.put_text(": ");
    } else {
        place.put_field(line as u64);
        place.put_text(": line");
    }
    place
}

/// The kind of a fault.
#[tactic(auto, unfolding(crate::specs::Message::kind_said))]
fn kind_words(fault: TextFault) -> LineEnd
    ensures { result ≡ kind_said fault }
{
    let mut words = LineEnd::new();
    if fault.line == 0 {
        words.put_text(whole_words(fault.kind));
    } else {
        words.put_text(word_of_fault(fault.kind));
        words.put_text(": ");
    }
    words
}

/// What is said of events that weren't enabled, behind the name of a command.
#[tactic(auto, unfolding(crate::specs::Message::dead_text))]
fn dead_line(dead: DeadEvents) -> LineEnd
    ensures { result ≡ dead_text dead }
{
    let mut line = LineEnd::new();
    line.put_text("\n");
    line.put_text(dead.obstacle.name());
    line.put_text(": ");
    line.put_field(u64::from(dead.place) + 2);
    line.put_text(", the first in line");
    line.put_field(u64::from(dead.count));
    line.put_text(": events not enabled:");
    line
}

impl Refusal {
    /// Puts what is said of a refusal, besides the place of its fault, behind a text of which a front is written and the rest
    /// waits.
    fn print_note<E: Write>(&self, errors: &mut Tap<E>, waiting: &mut Vec<u8>)
        ensures printed { (start : Option (List ℕ)) (text : List ℕ) → IsPrinted start
            (E.contents (tapped errors.old)) (has_failed errors.old) waiting.old.items text
            → IsPrinted start (E.contents (tapped errors.new)) (has_failed errors.new)
            waiting.new.items (text ++ note_text self.now.fault self.now.note) }
        ensures again { is_called_again errors.new ≡ is_called_again errors.old }
    {
        match &self.note {
            Note::Kind => print_piece(errors, waiting, kind_words(self.fault).as_slice()),
            Note::Fixed(words) => print_piece(errors, waiting, words.as_bytes()),
            Note::Made(words) => print_piece(errors, waiting, words),
        }
    }

    /// Puts what a command of this name says of a refusal behind a text, likewise.
    fn print<E: Write>(&self, errors: &mut Tap<E>, waiting: &mut Vec<u8>, name: &str)
        ensures printed { (start : Option (List ℕ)) (text : List ℕ) → IsPrinted start
            (E.contents (tapped errors.old)) (has_failed errors.old) waiting.old.items text
            → IsPrinted start (E.contents (tapped errors.new)) (has_failed errors.new)
            waiting.new.items (text ++ message name.now (Some self.now) None false) }
        ensures again { is_called_again errors.new ≡ is_called_again errors.old }
    {
        print_piece(errors, waiting, name.as_bytes());
        print_piece(errors, waiting, place(self.fault.line).as_slice());
        self.print_note(errors, waiting);
        print_piece(errors, waiting, b"\n");
    }
}

impl Ended {
    /// Puts what a command of this name says of events that weren't enabled behind a text, likewise.
    fn print_dead<E: Write>(&self, errors: &mut Tap<E>, waiting: &mut Vec<u8>, name: &str)
        ensures printed { (start : Option (List ℕ)) (text : List ℕ) → IsPrinted start
            (E.contents (tapped errors.old)) (has_failed errors.old) waiting.old.items text
            → IsPrinted start (E.contents (tapped errors.new)) (has_failed errors.new)
            waiting.new.items (text ++ message name.now None self.now.dead false) }
        ensures again { is_called_again errors.new ≡ is_called_again errors.old }
    {
        if let Some(dead) = self.dead {
            print_piece(errors, waiting, name.as_bytes());
            print_piece(errors, waiting, dead_line(dead).as_slice());
        }
    }

    /// Puts what is said of how a command of this name ended behind a text, likewise.
    fn print<E: Write>(
        &self,
        errors: &mut Tap<E>,
        waiting: &mut Vec<u8>,
        name: &str,
        is_broken: bool,
    )
        ensures printed { (start : Option (List ℕ)) (text : List ℕ) → IsPrinted start
            (E.contents (tapped errors.old)) (has_failed errors.old) waiting.old.items text
            → IsPrinted start (E.contents (tapped errors.new)) (has_failed errors.new)
            waiting.new.items (text ++ message name.now self.now.refusal self.now.dead is_broken) }
        ensures again { is_called_again errors.new ≡ is_called_again errors.old }
    {
        match &self.refusal {
            Some(refusal) => refusal.print(errors, waiting, name),
            None if is_broken => {
                print_piece(errors, waiting, name.as_bytes());
                print_piece(errors, waiting, b": standard output can't be written\n");
            }
            None => self.print_dead(errors, waiting, name),
        }
    }

    /// Says on standard error why the input of the command of this name was refused, or that its output couldn't be written,
    /// or which events weren't enabled, if one of them is so. It takes no memory that could be refused.
    pub fn tell<E: Write>(&self, alloc: Global, errors: &mut Tap<E>, name: &str, is_broken: bool)
        requires { has_failed errors.old ≡ false }
        ensures front { WritesFront (E.contents (tapped errors.old)) (E.contents (tapped errors.new))
            (message name.now self.now.refusal self.now.dead is_broken) }
        ensures whole { has_failed errors.new ≡ false
            → Appends (E.contents (tapped errors.old)) (E.contents (tapped errors.new))
            (message name.now self.now.refusal self.now.dead is_broken) }
        ensures again { is_called_again errors.new ≡ is_called_again errors.old }
    {
        let mut waiting = Vec::new(alloc);
        self.print(errors, &mut waiting, name, is_broken);
        print_end(errors, &waiting, self.outcome);
    }
}
