//! The lines of a trace.

ghost use Rattle.std.specs.Prelude.{◌≡◌, ◌<◌, IfSome};
ghost use Rattle.sci_words.specs.declared.limits.TheConstants.{MAX_NODES};
ghost use Rattle.sci_axe.specs.Trace.{IsKnown};
ghost use Rattle.sci_text.specs.Reading.{Gives};
ghost use Rattle.sci_axe.specs.Line.{access_read, atomic_read, ended as ended_of, final_read, joined as joined_of, line_read, made as made_of, operation_read, part_read, relation_read};
ghost use Rattle.sci_axe.specs.Line.{single as single_of, span_read, time_read, work_read};

use crate::notation::{Number, behind, is_end, number};
use sci_judge::{Access, Kind};
use sci_words::{MAX_NODES, Word};

/// How a word and memory are related.
#[derive(Clone, Copy, Debug, PartialEq, Eq)]
pub enum Relation {
    /// `:=`
    Wrote,
    /// `==`
    Found,
}

/// A part of an operation, whose numbers may be too large: `M[A] := V` or `M[A] == V`.
#[derive(Clone, Copy)]
pub struct Part {
    pub address: Number,
    pub relation: Relation,
    pub word: Number,
}

/// What was done at an address, if the numbers fit.
#[derive(Clone, Copy)]
pub struct Work {
    pub address: Number,
    pub kind: Option<Kind>,
}

/// The times of an operation, if they fit.
#[derive(Clone, Copy)]
pub struct Span {
    pub begin: Number,
    pub end: Number,
}

/// The last word at an address.
#[derive(Clone, Copy, Debug, PartialEq, Eq)]
pub struct LastWord {
    pub address: u64,
    pub word: Word,
}

/// What a line says.
#[derive(Clone, Copy, Debug, PartialEq, Eq)]
pub enum Said {
    /// Nothing that counts: a comment, an empty line, or `sync`.
    Nothing,
    /// What a processor did.
    Did(Access),
    /// What an address had at the end.
    Ended(LastWord),
}

/// The relation at the front of `bytes`, and the bytes after it.
#[tactic(auto, unfolding(crate::specs::Line::relation_read))]
pub fn relation_at(bytes: &[u8]) -> Option<(Relation, &[u8])>
    ensures { Gives (λ x. (x.0, x.1.now)) result (relation_read bytes.now) }
{
    if let Some(rest) = behind(b":=", bytes) {
        return Some((Relation::Wrote, rest));
    }
    let rest = behind(b"==", bytes)?;
    Some((Relation::Found, rest))
}

/// The part of an operation at the front of `bytes`, and the bytes after it.
#[tactic(auto, unfolding(crate::specs::Line::part_read))]
fn part_at(bytes: &[u8]) -> Option<(Part, &[u8])>
    ensures { Gives (λ x. (x.0, x.1.now)) result (part_read bytes.now) }
{
    let rest = behind(b"M", bytes)?;
    let rest = behind(b"[", rest)?;
    let (address, rest) = number(rest)?;
    let rest = behind(b"]", rest)?;
    let (relation, rest) = relation_at(rest)?;
    let (word, rest) = number(rest)?;
    let part = Part {
        address,
        relation,
        word,
    };
    Some((part, rest))
}

/// What a load or a store did.
#[tactic(auto, unfolding(crate::specs::Line::single))]
fn single(part: Part) -> Work
    ensures { result ≡ single_of part }
{
    let kind = match part.relation {
        Relation::Wrote => part.word.map(Kind::Store),
        Relation::Found => part.word.map(Kind::Load),
    };
    Work {
        address: part.address,
        kind,
    }
}

/// What an atomic did that is made of two parts, or None if they don't make one.
#[tactic(auto, unfolding(crate::specs::Line::joined))]
fn joined(read: Part, wrote: Part) -> Option<Work>
    ensures { result ≡ joined_of read wrote }
{
    match (read.relation, wrote.relation) {
        (Relation::Found, Relation::Wrote) if read.address == wrote.address => {
            let words = read.word.zip(wrote.word);
            Some(Work {
                address: read.address,
                kind: words.map(|(read, wrote)| Kind::Atomic { read, wrote }),
            })
        }
        _ => None,
    }
}

/// The atomic behind a brace, and the bytes after it.
#[tactic(auto, unfolding(crate::specs::Line::atomic_read))]
fn atomic(bytes: &[u8]) -> Option<(Work, &[u8])>
    ensures { Gives (λ x. (x.0, x.1.now)) result (atomic_read bytes.now) }
{
    let (read, rest) = part_at(bytes)?;
    let rest = behind(b";", rest)?;
    let (wrote, rest) = part_at(rest)?;
    let rest = behind(b"}", rest)?;
    Some((joined(read, wrote)?, rest))
}

/// What was done, and the bytes after it.
#[tactic(auto, unfolding(crate::specs::Line::work_read))]
fn work_at(bytes: &[u8]) -> Option<(Work, &[u8])>
    ensures { Gives (λ x. (x.0, x.1.now)) result (work_read bytes.now) }
{
    if let Some(rest) = behind(b"{", bytes) {
        return atomic(rest);
    }
    let (part, rest) = part_at(bytes)?;
    Some((single(part), rest))
}

/// The time at the front of `bytes`, or what stands for none, and the bytes after it.
#[tactic(auto, unfolding(crate::specs::Line::time_read))]
fn time(default: u64, bytes: &[u8]) -> (Number, &[u8])
    ensures { (result.0, result.1.now) ≡ time_read default bytes.now }
{
    match number(bytes) {
        Some((time, rest)) => (time, rest),
        None => (Some(default), bytes),
    }
}

/// The times at the front of `bytes`, and the bytes after them.
#[tactic(auto, unfolding(crate::specs::Line::span_read))]
fn span_at(bytes: &[u8]) -> Option<(Span, &[u8])>
    ensures { Gives (λ x. (x.0, x.1.now)) result (span_read bytes.now) }
{
    let Some(rest) = behind(b"@", bytes) else {
        let span = Span {
            begin: Some(0),
            end: Some(u64::MAX),
        };
        return Some((span, bytes));
    };
    let (begin, rest) = time(0, rest);
    let rest = behind(b":", rest)?;
    let (end, rest) = time(u64::MAX, rest);
    Some((Span { begin, end }, rest))
}

/// The operation of these parts, if its numbers fit.
#[tactic(auto, unfolding(crate::specs::Line::made))]
fn made(line: usize, processor: Number, work: Work, span: Span) -> Option<Access>
    ensures made { result ≡ made_of line processor work span }
    ensures known { IfSome result (λ access. access.processor < MAX_NODES) }
{
    let processor = processor?;
    let address = work.address?;
    let kind = work.kind?;
    let begin = span.begin?;
    let end = span.end?;
    if processor >= u64::from(MAX_NODES) || begin > end {
        return None;
    }
    Some(Access {
        processor: processor as u8,
        address,
        kind,
        begin,
        end,
        line,
    })
}

/// The operation of a processor that the bytes behind its colon say.
#[tactic(auto, unfolding(crate::specs::Line::access_read))]
fn access(line: usize, processor: Number, bytes: &[u8]) -> Option<Option<Said>>
    ensures read { result ≡ access_read line processor bytes.now }
    ensures known { IfSome result (λ said. IfSome said IsKnown) }
{
    let (work, rest) = work_at(bytes)?;
    let (span, rest) = span_at(rest)?;
    if !is_end(rest) {
        return None;
    }
    Some(made(line, processor, work, span).map(Said::Did))
}

/// What a line with a processor says.
#[tactic(auto, unfolding(crate::specs::Line::operation_read))]
fn operation(line: usize, bytes: &[u8]) -> Option<Option<Said>>
    ensures read { result ≡ operation_read line bytes.now }
    ensures known { IfSome result (λ said. IfSome said IsKnown) }
{
    let (processor, rest) = number(bytes)?;
    let rest = behind(b":", rest)?;
    match behind(b"sync", rest) {
        None => access(line, processor, rest),
        Some(rest) if is_end(rest) => Some(Some(Said::Nothing)),
        Some(_) => None,
    }
}

/// The last word that a part says, if its numbers fit.
#[tactic(auto, unfolding(crate::specs::Line::ended))]
fn ended(part: Part) -> Option<Said>
    ensures ended { result ≡ ended_of part }
    ensures known { IfSome result IsKnown }
{
    let address = part.address?;
    let word = part.word?;
    Some(Said::Ended(LastWord { address, word }))
}

/// What a line says whose bytes behind `final` these are.
#[tactic(auto, unfolding(crate::specs::Line::final_read))]
fn last_word(bytes: &[u8]) -> Option<Option<Said>>
    ensures read { result ≡ final_read bytes.now }
    ensures known { IfSome result (λ said. IfSome said IsKnown) }
{
    let (part, rest) = part_at(bytes)?;
    match part.relation {
        Relation::Found if is_end(rest) => Some(ended(part)),
        _ => None,
    }
}

/// What the bytes of a line say: None if they are of no such form, and Some of None if a number is outside its limits.
#[tactic(auto, unfolding(crate::specs::Line::line_read))]
pub fn line(line: usize, bytes: &[u8]) -> Option<Option<Said>>
    ensures read { result ≡ line_read line bytes.now }
    ensures known { IfSome result (λ said. IfSome said IsKnown) }
{
    if is_end(bytes) {
        return Some(Some(Said::Nothing));
    }
    match behind(b"final", bytes) {
        None => operation(line, bytes),
        Some(rest) => last_word(rest),
    }
}
