//! Operations of a trace.

ghost use Rattle.std.specs.Prelude.{◌≡◌, ◌↔◌, IsTrue};
ghost use Rattle.sci_c_traces.specs.Trace.{IsAccess, access_of, kind_of};

use sci_judge::{Access, Kind};
use sci_words::MAX_NODES;

/// What a processor did at an address. `kind` is 0 for a load, which read `read`, 1 for a store, which wrote `wrote`, and 2 for an
/// atomic, which did both. `begin` is 0 and `end` the greatest number if they aren't known. `id` is the caller's, to name the operation.
#[repr(C)]
#[derive(Clone, Copy)]
pub struct SciAccess {
    pub processor: u8,
    pub kind: u8,
    pub reserved: u16,
    pub reserved2: u32,
    pub address: u64,
    pub read: u64,
    pub wrote: u64,
    pub begin: u64,
    pub end: u64,
    pub id: u64,
}

impl SciAccess {
    /// Whether it says an operation.
    pub(crate) fn is_access(&self) -> bool
        ensures { IsTrue result ↔ IsAccess self.now }
    {
        self.processor < MAX_NODES && self.kind <= 2 && self.begin <= self.end
    }

    /// What it did.
    fn kind(&self) -> Kind
        ensures { result ≡ kind_of self.now }
    {
        match self.kind {
            0 => Kind::Load(self.read),
            1 => Kind::Store(self.wrote),
            _ => Kind::Atomic {
                read: self.read,
                wrote: self.wrote,
            },
        }
    }

    /// The operation.
    pub(crate) fn access(&self) -> Access
        ensures { result ≡ access_of self.now }
    {
        Access {
            processor: self.processor,
            address: self.address,
            kind: self.kind(),
            begin: self.begin,
            end: self.end,
            line: self.id as usize,
        }
    }
}
