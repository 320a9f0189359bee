//! What is found on a line of memory that has a fault.

ghost use Rattle.std.specs.Prelude.{◌≡◌, ◌<◌, All, IfOk};
ghost use Rattle.sci_words.specs.declared.limits.TheConstants.{WORDS_PER_LINE};
ghost use Rattle.sci_history.specs.Audit.{AreKnown};
ghost use Rattle.sci_reports.specs.{EntryLines.{entries_in}, Faulty.{contents_left}, Finding.{IsFinding}};

use crate::faulty::{FaultyEntry, contents_after, faulty_entry};
use crate::numbered::{Numbered, placed};
use sci_history::LineFault;
use sci_words::Stamped;
use std::alloc::{AllocError, Global};

/// A line of memory, its entries and its last contents.
#[derive(Drop)]
pub struct Subject<'a> {
    /// The line of memory.
    pub line: u8,
    /// Its entries, in the order of the text.
    pub entries: Vec<Numbered<'a>>,
    /// Its last contents.
    pub last: Stamped,
    /// The line of the text that has them.
    pub last_line: usize,
}

/// What is found on a line of memory that has a fault.
#[derive(Drop)]
pub struct Finding<'a> {
    /// The line of memory.
    pub subject: Subject<'a>,
    /// Its fault.
    pub fault: LineFault,
    /// Its entries, in the order of versions.
    pub placed: Vec<Numbered<'a>>,
    /// The entry at fault. None if the last contents differ.
    pub found: Option<FaultyEntry<'a>>,
    /// The contents that the entries leave.
    pub left: Stamped,
}

/// The contents that entries in the order of their versions leave.
fn left_by(placed: &[Numbered]) -> Stamped
    ensures { All (λ entry. entry.op.word < WORDS_PER_LINE) (entries_in placed.now)
        → result ≡ contents_left (entries_in placed.now) }
{
    contents_after(placed)
}

impl<'a> Finding<'a> {
    /// What is found on a line that has this fault. Refused if memory is.
    pub fn of(
        alloc: Global,
        fault: LineFault,
        subject: Subject<'a>,
    ) -> Result<Finding<'a>, AllocError>
        ensures subject { IfOk result (λ finding. finding.subject ≡ subject.entry) }
        ensures found { AreKnown (entries_in subject.entry.entries.items)
            → IfOk result (IsFinding fault) }
    {
        let placed = placed(alloc, &subject.entries)?;
        let found = faulty_entry(alloc, fault.kind, &subject.entries, &placed)?;
        let left = left_by(&placed);
        Ok(Finding {
            subject,
            fault,
            placed,
            found,
            left,
        })
    }
}
