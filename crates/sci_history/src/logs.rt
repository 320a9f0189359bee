//! The logs of all nodes.

ghost use Rattle.std.specs.Prelude.{◌≡◌, ◌≢◌, ◌≤◌, ◌<◌, ◌++◌, ◌∷◌, [], ◌↔◌, List, ℕ, length, replicate, slice_set, IfOk, OnOk, OnErr, IsErrOf};
ghost use Rattle.std.specs.List.{All};
ghost use Rattle.sci_words.specs.declared.limits.TheConstants.{MAX_NODES, MAX_OPERATIONS};
ghost use Rattle.sci_history.specs.Placed.{AreOwn, in_serial_order as in_serial_order_of, log_of};
ghost use Rattle.sci_history.specs.Sequential.{by_serial as by_serial_of};

use crate::entry::Entry;
use sci_words::{MAX_NODES, MAX_OPERATIONS};
use std::alloc::{AllocError, Global};
use std::marker::Model;

const NODES: usize = MAX_NODES as usize;

/// Why an entry was not logged.
#[derive(Debug, Drop, PartialEq, Eq)]
pub enum PushFault {
    /// The node's log has 65,536 entries already.
    Full,
    /// There was no memory for one entry more.
    Memory(AllocError),
}

/// One log for each of sixteen nodes: its entries in the order in which they were performed. Contracts see
/// the list of the sixteen logs.
#[derive(Drop)]
pub struct Logs {
    lists: [Vec<Entry>; NODES],
}

impl Model for Logs {
    ghost use Rattle.std.specs.Prelude.{◌≡◌, List, length, map};
    ghost use Rattle.sci_words.specs.declared.limits.TheConstants.{MAX_NODES};
    ghost use Rattle.sci_history.specs.{declared.entry.Entry.{Entry}, Placed.{AreOwn}};

    ghost Value = { List (List Entry) };

    ghost view = { λ logs. map (λ log. log.items) logs.lists };

    ghost invariant = { λ logs. (length logs.lists ≡ MAX_NODES) × AreOwn (map (λ log. log.items) logs.lists) };
}

impl Logs {
    /// Sixteen empty logs.
    pub fn new(alloc: Global) -> Logs
        ensures { result ≡ replicate MAX_NODES [] }
    {
        Logs {
            lists: [
                Vec::new(alloc),
                Vec::new(alloc),
                Vec::new(alloc),
                Vec::new(alloc),
                Vec::new(alloc),
                Vec::new(alloc),
                Vec::new(alloc),
                Vec::new(alloc),
                Vec::new(alloc),
                Vec::new(alloc),
                Vec::new(alloc),
                Vec::new(alloc),
                Vec::new(alloc),
                Vec::new(alloc),
                Vec::new(alloc),
                Vec::new(alloc),
            ],
        }
    }

    /// Ends the log of the entry's node with the entry; an error leaves all logs as they were. Requires that the node is below 16.
    pub fn push(&mut self, entry: Entry) -> Result<(), PushFault>
        requires { entry.node < MAX_NODES }
        ensures ok { OnOk result (self.new
            ≡ slice_set self.old entry.node (log_of self.old entry.node ++ entry ∷ [])) }
        ensures err { OnErr result (self.new ≡ self.old) }
        ensures full { IsErrOf result PushFault.Full
            ↔ (MAX_OPERATIONS ≤ length (log_of self.old entry.node)) }
        ensures nodes { length self.new ≡ MAX_NODES }
    {
        let log = &mut self.lists[entry.node as usize];
        push_entry(log, entry)
    }

    /// Makes these entries the log of a node, in place of those that it has. Requires that the node is below 16, and that
    /// the entries are its own. Their number isn't bounded: `push` alone keeps a log to 65,536 entries.
    pub fn put(&mut self, node: u8, log: Vec<Entry>)
        requires node { node < MAX_NODES }
        requires own { All (λ entry. entry.node ≡ node) log.items }
        ensures { self.new ≡ slice_set self.old node log.items }
    {
        self.lists[node as usize] = log;
    }

    /// The number of logs, which is 16. Each has its own node's entries.
    pub fn nodes(&self) -> u8
        ensures nodes { result ≡ length self.now }
        ensures sixteen { result ≡ MAX_NODES }
        ensures own { AreOwn self.now }
    {
        let _ = &self.lists;
        MAX_NODES
    }

    /// The logs with the entries of each node by their serials, which is the order in which the node issued them. Entries of
    /// one serial stay as they stand. Refused if memory is.
    pub fn by_serial(&self, alloc: Global) -> Result<Logs, AllocError>
        ensures { IfOk result (λ sorted. sorted ≡ by_serial_of self.now) }
    {
        let Logs { mut lists } = Logs::new(alloc);
        for node in 0..NODES {
            lists[node] = in_serial_order(alloc, &self.lists[node])?;
        }
        Ok(Logs { lists })
    }

    /// The number of entries in all logs, or the greatest `usize` if there are more.
    pub(crate) fn entries(&self) -> usize {
        let mut count: usize = 0;
        for log in &self.lists {
            count = count.saturating_add(log.len());
        }
        count
    }

    /// The log of a node, in the order in which its operations were performed. Requires that the
    /// node is below 16.
    pub fn of(&self, node: u8) -> &[Entry]
        requires { node < MAX_NODES }
        ensures log { result.now ≡ log_of self.now node }
        ensures nodes { length self.now ≡ MAX_NODES }
        ensures own { AreOwn self.now }
    {
        self.lists[node as usize].as_slice()
    }
}

/// Entries by their serials; those of one serial stay as they stand.
fn in_serial_order(alloc: Global, log: &[Entry]) -> Result<Vec<Entry>, AllocError>
    ensures { IfOk result (λ sorted. sorted.items ≡ in_serial_order_of log.now) }
{
    let mut sorted = Vec::from_slice(alloc, log)?;
    sorted.sort_by_key(|entry| entry.serial)?;
    Ok(sorted)
}

fn push_entry(log: &mut Vec<Entry>, entry: Entry) -> Result<(), PushFault>
    ensures ok { OnOk result (log.new.items ≡ log.old.items ++ entry ∷ []) }
    ensures err { OnErr result (log.new.items ≡ log.old.items) }
    ensures full { IsErrOf result PushFault.Full ↔ (MAX_OPERATIONS ≤ length log.old.items) }
{
    if log.len() >= MAX_OPERATIONS as usize {
        return Err(PushFault::Full);
    }
    log.push(entry).map_err(|_| PushFault::Memory(AllocError))
}
