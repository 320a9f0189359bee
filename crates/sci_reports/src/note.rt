//! What a fault of a line means, in words, and the entries around it.

ghost use Rattle.std.specs.{Prelude.{◌≡◌, ◌≤◌, ◌++◌, OnOk, length}, List.{flat_map}};
ghost use Rattle.sci_reports.specs.EntryLines.{entry_of};
ghost use Rattle.sci_reports.specs.NoteText.{around_text, cause_text, done_text, fault_text, finding_text, got_text, last_are_text, last_text, left_text};
ghost use Rattle.sci_reports.specs.NoteText.{made_before_text, maker_text, makers_text, note_text, other_word_text, placed_after_text};
ghost use Rattle.sci_reports.specs.NoteText.{serial_after_text, shown_line, some_makers_text, verb_text, version_text, where_text, who_text};
ghost use Rattle.sci_reports.specs.Window.{place_on_line, window};

use crate::faulty::{Cause, FaultyEntry};
use crate::finding::Finding;
use crate::numbered::Numbered;
use sci_command::{push_contents, push_labelled, verdict_line};
use sci_history::Verdict;
use sci_text::{push_entry, push_field, push_text};
use sci_words::{Act, Reply, Stamped, Word};
use std::alloc::{AllocError, Global};

/// How many entries are shown before and after the one at fault.
const AROUND: usize = 3;

/// Appends `node N serial S`.
#[tactic(auto, unfolding(crate::specs::NoteText::who_text))]
fn push_who(out: &mut Vec<u8>, at: Numbered) -> Result<(), AllocError>
    ensures { OnOk result (out.new.items ≡ out.old.items ++ who_text (entry_of at.entry)) }
{
    push_labelled(out, b"node", u64::from(at.entry.node))?;
    push_labelled(out, b" serial", u64::from(at.entry.serial))
}

/// Appends who it is, and the line of the text.
#[tactic(auto, unfolding(crate::specs::NoteText::where_text))]
fn push_who_where(out: &mut Vec<u8>, at: Numbered) -> Result<(), AllocError>
    ensures { OnOk result (out.new.items ≡ out.old.items ++ where_text at.entry) }
{
    push_who(out, at)?;
    push_labelled(out, b" on line", at.text_line as u64)
}

/// What an operation does to its word.
#[tactic(auto, unfolding(crate::specs::NoteText::verb_text))]
fn verb(act: Act) -> &'static str
    ensures { result.now ≡ verb_text act }
{
    match act {
        Act::Load => " loads word",
        Act::Store(_) => " stores to word",
        Act::Lock(_) => " locks word",
    }
}

/// Appends what an entry answered.
#[tactic(auto, unfolding(crate::specs::NoteText::got_text))]
fn push_got(out: &mut Vec<u8>, reply: Reply) -> Result<(), AllocError>
    ensures { OnOk result (out.new.items ≡ out.old.items ++ got_text reply) }
{
    match reply {
        Reply::Stored => push_text(out, " and got no word"),
        Reply::Got(word) => push_labelled(out, b" and got", word),
    }
}

/// Appends who made a word.
#[tactic(auto, unfolding(crate::specs::NoteText::maker_text))]
fn push_maker(out: &mut Vec<u8>, maker: Option<Numbered>) -> Result<(), AllocError>
    ensures { OnOk result (out.new.items ≡ out.old.items ++ maker_text maker.entry) }
{
    match maker {
        None => push_text(out, ", as at first"),
        Some(maker) => {
            push_text(out, ", made by ")?;
            push_who(out, maker)
        }
    }
}

/// Appends what an entry did and got.
fn push_done(out: &mut Vec<u8>, at: Numbered) -> Result<(), AllocError>
    ensures { OnOk result (out.new.items ≡ out.old.items ++ done_text (entry_of at.entry)) }
{
    push_text(out, verb(at.entry.op.act))?;
    push_field(out, u64::from(at.entry.op.word))?;
    push_labelled(out, b" at version", at.entry.version)?;
    push_got(out, at.entry.reply)?;
    Ok(())
}

/// Appends what an entry found, and what it should have.
#[tactic(auto, unfolding(crate::specs::NoteText::other_word_text))]
fn push_other_word(
    out: &mut Vec<u8>,
    at: Numbered,
    word: Word,
    maker: Option<Numbered>,
) -> Result<(), AllocError>
    ensures { OnOk result (out.new.items
        ≡ out.old.items ++ other_word_text (entry_of at.entry) word maker.entry) }
{
    push_done(out, at)?;
    push_labelled(out, b"; the word there is", word)?;
    push_maker(out, maker)
}

/// Appends which version an entry has.
#[tactic(auto, unfolding(crate::specs::NoteText::version_text))]
fn push_version(out: &mut Vec<u8>, at: Numbered) -> Result<(), AllocError>
    ensures { OnOk result (out.new.items ≡ out.old.items ++ version_text (entry_of at.entry)) }
{
    let does: &[u8] = if at.entry.op.is_maker() {
        b" makes version"
    } else {
        b" loads at version"
    };
    push_labelled(out, does, at.entry.version)
}

/// Appends how many makers the line has, of which there is one at least, and which versions they should make.
#[tactic(auto, unfolding(crate::specs::NoteText::some_makers_text))]
fn push_some_makers(out: &mut Vec<u8>, makers: u64) -> Result<(), AllocError>
    ensures { OnOk result (out.new.items ≡ out.old.items ++ some_makers_text makers) }
{
    if makers == 1 {
        return push_text(out, "; the line has 1 maker, which should make version 1");
    }
    push_labelled(out, b"; the line has", makers)?;
    push_labelled(out, b" makers, which should make versions 1 to", makers)
}

/// Appends how many makers the line has, which versions they should make, and the least version that no entry makes.
#[tactic(auto, unfolding(crate::specs::NoteText::makers_text))]
fn push_makers(out: &mut Vec<u8>, makers: u64, least: u64) -> Result<(), AllocError>
    ensures { OnOk result (out.new.items ≡ out.old.items ++ makers_text makers least) }
{
    if makers == 0 {
        return push_text(out, "; the line has no maker, so its only version is 0");
    }
    push_some_makers(out, makers)?;
    push_labelled(out, b"; the least version that no entry makes is", least)
}

/// Appends that an entry makes a version that this one made.
#[tactic(auto, unfolding(crate::specs::NoteText::made_before_text))]
fn push_made_before(out: &mut Vec<u8>, at: Numbered, earlier: Numbered) -> Result<(), AllocError>
    ensures { OnOk result (out.new.items
        ≡ out.old.items ++ made_before_text (entry_of at.entry) earlier.entry) }
{
    push_labelled(out, b" makes version", at.entry.version)?;
    push_text(out, ", which was made by ")?;
    push_who_where(out, earlier)
}

/// Appends that an entry was logged after this one, whose serial isn't below.
fn push_serial_after(out: &mut Vec<u8>, earlier: Numbered) -> Result<(), AllocError>
    ensures { OnOk result (out.new.items ≡ out.old.items ++ serial_after_text earlier.entry) }
{
    push_text(out, " was logged after ")?;
    push_who_where(out, earlier)?;
    push_text(out, ", whose serial isn't below")?;
    Ok(())
}

/// Appends that an entry was logged after this one, which is placed after it.
fn push_placed_after(out: &mut Vec<u8>, at: Numbered, earlier: Numbered) -> Result<(), AllocError>
    ensures { OnOk result (out.new.items
        ≡ out.old.items ++ placed_after_text (entry_of at.entry) earlier.entry) }
{
    push_labelled(out, b" at version", at.entry.version)?;
    push_text(out, " was logged after ")?;
    push_who_where(out, earlier)?;
    push_labelled(out, b", which is at version", earlier.entry.version)?;
    Ok(())
}

/// Appends why an entry is at fault.
#[tactic(auto, unfolding(crate::specs::NoteText::cause_text))]
fn push_cause(out: &mut Vec<u8>, at: Numbered, cause: Cause) -> Result<(), AllocError>
    ensures { OnOk result (out.new.items
        ≡ out.old.items ++ cause_text (entry_of at.entry) cause.entry) }
{
    match cause {
        Cause::MadeBefore(earlier) => push_made_before(out, at, earlier),
        Cause::FewMakers(makers, least) => {
            push_version(out, at)?;
            push_makers(out, makers, least)
        }
        Cause::OtherWord(word, maker) => push_other_word(out, at, word, maker),
        Cause::SerialAfter(earlier) => push_serial_after(out, earlier),
        Cause::PlacedAfter(earlier) => push_placed_after(out, at, earlier),
    }
}

/// The place of the entry on this line of the text, or behind the last if there is none.
fn place_on(placed: &[Numbered], text_line: usize) -> usize
    ensures place { result ≡ place_on_line placed.now text_line }
    ensures few { result ≤ length placed.now }
{
    for place in 0..placed.len() {
        if placed[place].text_line == text_line {
            return place;
        }
    }
    placed.len()
}

/// The entries that are shown around the one on this line of the text: it, and up to three on either side.
pub(crate) fn around<'a, 'b>(placed: &'b [Numbered<'a>], text_line: usize) -> &'b [Numbered<'a>]
    ensures { result.now ≡ window placed.now text_line }
{
    let from = place_on(placed, text_line).saturating_sub(AROUND);
    let shown = (placed.len() - from).min(2 * AROUND + 1);
    &placed[from..from + shown]
}

/// Appends the line of an entry that is shown, with a mark if it is the one on this line of the text.
#[tactic(auto, unfolding(crate::specs::NoteText::shown_line))]
fn push_shown(out: &mut Vec<u8>, it: Numbered, marked: usize) -> Result<(), AllocError>
    ensures { OnOk result (out.new.items ≡ out.old.items ++ shown_line marked it.entry) }
{
    let mark: &[u8] = if it.text_line == marked {
        b"  > line"
    } else {
        b"    line"
    };
    push_labelled(out, mark, it.text_line as u64)?;
    push_text(out, ": ")?;
    push_entry(out, it.entry)?;
    push_text(out, "\n")
}

/// Appends the lines of entries that are shown, of which the one on this line of the text is marked.
fn push_all_shown(out: &mut Vec<u8>, shown: &[Numbered], marked: usize) -> Result<(), AllocError>
    ensures { OnOk result
        (out.new.items ≡ out.old.items ++ flat_map (shown_line marked) shown.now) }
{
    for it in shown {
        push_shown(out, *it, marked)?;
    }
    Ok(())
}

/// Appends the lines of entries, of which the one on this line of the text is marked. Nothing if there are none.
fn push_around(out: &mut Vec<u8>, placed: &[Numbered], marked: usize) -> Result<(), AllocError>
    ensures { OnOk result (out.new.items ≡ out.old.items ++ around_text placed.now marked) }
{
    if placed.is_empty() {
        return Ok(());
    }
    push_text(out, "  entries of the line in the order of versions:\n")?;
    push_all_shown(out, around(placed, marked), marked)?;
    Ok(())
}

/// Appends what last contents are.
#[tactic(auto, unfolding(crate::specs::NoteText::last_are_text))]
fn push_last_are(out: &mut Vec<u8>, text_line: usize, last: Stamped) -> Result<(), AllocError>
    ensures { OnOk result (out.new.items ≡ out.old.items ++ last_are_text text_line last) }
{
    push_labelled(out, b"  line", text_line as u64)?;
    push_text(out, ": the last contents are")?;
    push_contents(out, &last)
}

/// Appends what entries leave.
fn push_left(out: &mut Vec<u8>, left: Stamped) -> Result<(), AllocError>
    ensures { OnOk result (out.new.items ≡ out.old.items ++ left_text left) }
{
    push_text(out, "; the entries leave")?;
    push_contents(out, &left)?;
    push_text(out, "\n")?;
    Ok(())
}

/// Appends what last contents are, and what they should be.
#[tactic(auto, unfolding(crate::specs::NoteText::last_text))]
fn push_last(out: &mut Vec<u8>, finding: &Finding) -> Result<(), AllocError>
    ensures { OnOk result (out.new.items ≡ out.old.items ++ last_text finding.now) }
{
    push_last_are(out, finding.subject.last_line, finding.subject.last)?;
    push_left(out, finding.left)
}

/// Appends the line that says which entry is at fault, and why.
#[tactic(auto, unfolding(crate::specs::NoteText::fault_text))]
fn push_fault(out: &mut Vec<u8>, found: FaultyEntry) -> Result<(), AllocError>
    ensures { OnOk result (out.new.items ≡ out.old.items ++ fault_text found.entry) }
{
    push_labelled(out, b"  line", found.at.text_line as u64)?;
    push_text(out, ": ")?;
    push_who(out, found.at)?;
    push_cause(out, found.at, found.cause)?;
    push_text(out, "\n")
}

/// Appends the lines that say what a fault means.
#[tactic(auto, unfolding(crate::specs::NoteText::note_text))]
fn push_note(out: &mut Vec<u8>, finding: &Finding) -> Result<(), AllocError>
    ensures { OnOk result (out.new.items ≡ out.old.items ++ note_text finding.now.found finding.now) }
{
    let Some(found) = finding.found else {
        push_last(out, finding)?;
        return push_around(out, &finding.placed, 0);
    };
    push_fault(out, found)?;
    push_around(out, &finding.placed, found.at.text_line)
}

/// Appends what is found on a line of memory: the line of an audit that names its fault, the lines that say what the fault
/// means, and the entries around it in the order of versions. Refused if memory is.
pub(crate) fn push_finding(
    alloc: Global,
    out: &mut Vec<u8>,
    finding: &Finding,
) -> Result<(), AllocError>
    ensures { OnOk result (out.new.items ≡ out.old.items ++ finding_text finding.now) }
{
    let verdict = Verdict::Fault {
        line: finding.subject.line,
        kind: finding.fault.kind,
        at: finding.fault.at,
    };
    out.extend_from_slice(&verdict_line(alloc, verdict)?)?;
    push_note(out, finding)
}
