//! The check of versions that were found: the audit of the logs that they make.

ghost use Rattle.std.specs.Prelude.{◌≡◌, ◌<◌, true, IfOk, IfSome, All, length};
ghost use Rattle.std.specs.{Bool.{OnTrue}, Option.{option_copied}};
ghost use Rattle.sci_words.specs.declared.limits.TheConstants.{MAX_NODES};
ghost use Rattle.sci_judge.specs.{Access.{AreKnown}, Coherent.{act_of, entry_of, known_last, reply_of}};
ghost use Rattle.sci_versions.specs.Versions.{AgreesWith};
ghost use Rattle.sci_judge.specs.Stamped.{AreStamped, IsExplainedBy};

use crate::access::{Access, Kind};
use crate::site::Site;
use sci_history::{Entry, Last, Logs, PushFault, Verdict, audit};
use sci_words::{Act, Line, LockOp, Op, Reply, Stamped, Word};
use std::alloc::{AllocError, Global};

impl Kind {
    /// The operation as logs have it: an atomic is a compare-and-swap that found the word that it looked for.
    fn act(self) -> Act
        ensures { result ≡ act_of self }
    {
        match self {
            Kind::Load(_) => Act::Load,
            Kind::Store(wrote) => Act::Store(wrote),
            Kind::Atomic { read, wrote } => Act::Lock(LockOp::CompareSwap {
                arg: read,
                datum: wrote,
            }),
        }
    }

    /// Its reply there.
    fn reply(self) -> Reply
        ensures { result ≡ reply_of self }
    {
        match self {
            Kind::Load(read) | Kind::Atomic { read, .. } => Reply::Got(read),
            Kind::Store(_) => Reply::Stored,
        }
    }
}

/// The entry of an operation, with its place among all at the address and a version.
pub fn entry_with(serial: u32, access: &Access, version: u64) -> Entry
    ensures { result ≡ record (entry_of serial access.now) { version = version } }
{
    Entry {
        node: access.processor,
        serial,
        op: Op {
            act: access.kind.act(),
            line: 0,
            word: 0,
        },
        reply: access.kind.reply(),
        version,
    }
}

impl Site<'_> {
    /// The logs of the operations, each with its version, or None if a processor has more than 65,536 of them or there are
    /// fewer versions. Refused if memory is.
    fn logs_with(&self, alloc: Global, versions: &[u64]) -> Result<Option<Logs>, AllocError>
        requires { AreKnown self.now.accesses.now }
        ensures { IfOk result (λ made. IfSome made (AreStamped self.now.accesses.now versions.now)) }
    {
        let mut logs = Logs::new(alloc);
        for (place, access) in self.accesses.iter().enumerate() {
            let (Ok(serial), Some(version)) = (u32::try_from(place), versions.get(place)) else {
                return Ok(None);
            };
            match logs.push(entry_with(serial, access, *version)) {
                Ok(()) => {}
                Err(PushFault::Full) => return Ok(None),
                Err(PushFault::Memory(error)) => return Err(error),
            }
        }
        Ok(Some(logs))
    }

    /// The contents that versions lead to: the word that the operation with the greatest version leaves, and that version. They
    /// stand on the heap, as they take some KB. Refused if memory is.
    #[inline(never)]
    fn contents_with(
        &self,
        alloc: Global,
        versions: &[u64],
    ) -> Result<Box<Last, Global>, AllocError>
        ensures { IfOk result (λ last. length last.value ≡ 1) }
    {
        let mut word = 0;
        let mut version = 0;
        for (access, at) in self.accesses.iter().zip(versions) {
            if *at >= version {
                version = *at;
                word = access.kind.left();
            }
        }
        let mut last = Box::new(alloc, Last::zero(1))?;
        let line = Line::zero().with(0, word);
        last.set(0, Stamped { line, version });
        Ok(last)
    }
}

impl Site<'_> {
    /// Whether versions explain the operations, the last word too if it is known: the logs with these versions pass an audit.
    /// True only if they do. Refused if memory is.
    pub fn is_explained_by(&self, alloc: Global, versions: &[u64]) -> Result<bool, AllocError>
        requires { AreKnown self.now.accesses.now }
        ensures { IfOk result (λ explained. explained ≡ true →
            IsExplainedBy self.now.timed self.now.accesses.now self.now.last versions.now) }
    {
        let Some(logs) = self.logs_with(alloc, versions)? else {
            return Ok(false);
        };
        let last = self.contents_with(alloc, versions)?;
        if !self.is_last(&last) {
            return Ok(false);
        }
        let timely = self.is_timely(alloc, versions)?;
        if !timely {
            return Ok(false);
        }
        match audit(alloc, &logs, &last)? {
            Verdict::Lawful => Ok(true),
            Verdict::Fault { .. } => Ok(false),
        }
    }

    /// Whether the last word there is the known one, if it is known.
    fn is_last(&self, last: &Last) -> bool
        requires { 0 < length last.now }
        ensures { OnTrue result (AgreesWith (known_last self.now.last) last.now) }
    {
        match self.last {
            Some(word) => last.get(0).line.word(0) == word,
            None => true,
        }
    }
}
