//! The judge of a trace: each address by itself.

ghost use Rattle.std.specs.Prelude.{◌≡◌, ◌↔◌, ℕ, true, IfOk, filter};
ghost use Rattle.std.specs.{BTreeSet.{contains}, List.{list_any}, Ordering.{nat_cmp}};
ghost use Rattle.std.specs.List.Sorted.{IsNonDecreasingBy};
ghost use Rattle.sci_judge.specs.{Access.{AreKnown}, Judgement.{IsJudgement, Names, at_address, is_at, is_free, is_unknown}};

use crate::access::Access;
use crate::finding::{Finding, Freedom};
use crate::searching::Search;
use crate::site::Site;
use crate::stretches::Stop;
use crate::trace::Trace;
use crate::witness::Witness;
use std::alloc::{AllocError, Global};
use std::collections::{BTreeMap, BTreeSet};

/// Versions that explain the operations at an address.
#[derive(Debug, Drop)]
pub struct SiteVersions {
    /// The address.
    pub address: u64,
    /// Of each operation there its version, in the order of the trace.
    pub versions: Vec<u64>,
    /// Whether other versions explain them as well.
    pub freedom: Freedom,
}

/// What is found of a trace.
#[derive(Debug, Drop)]
pub enum Judgement {
    /// The operations at each address are coherent, by these versions. The addresses are those that the trace names, and rise.
    Coherent(Vec<SiteVersions>),
    /// The operations at this address are not coherent. They are given in the order of the trace, and the witness names them by
    /// their places there.
    NotCoherent {
        address: u64,
        accesses: Vec<Access>,
        witness: Witness,
    },
    /// Nothing was found of the operations at this address.
    Undecided {
        address: u64,
    },
}

/// Whether other versions explain the operations at some address as well.
pub fn are_free(sites: &[SiteVersions]) -> bool
    ensures { result ≡ list_any (λ there. is_free there.freedom) sites.now }
{
    for site in sites {
        if site.freedom.is_free() {
            return true;
        }
    }
    false
}

/// Whether it isn't known of the operations at some address.
pub fn are_unknown(sites: &[SiteVersions]) -> bool
    ensures { result ≡ list_any (λ there. is_unknown there.freedom) sites.now }
{
    for site in sites {
        if site.freedom.is_unknown() {
            return true;
        }
    }
    false
}

/// The operations by their addresses, and those at one address as they stand.
pub(crate) fn by_address(alloc: Global, accesses: &[Access]) -> Result<Vec<Access>, AllocError>
    ensures rising { IfOk result
        (λ sorted. IsNonDecreasingBy (λ access. access.address) sorted.items) }
    ensures same { IfOk result (λ sorted. (address : ℕ) →
        filter (is_at address) sorted.items ≡ filter (is_at address) accesses.now) }
{
    let mut sorted = Vec::from_slice(alloc, accesses)?;
    sorted.sort_by_key(|access| access.address)?;
    Ok(sorted)
}

/// The operations at an address, of operations by their addresses.
pub(crate) fn operations_at(sorted: &[Access], address: u64) -> &[Access]
    requires { IsNonDecreasingBy (λ access. access.address) sorted.now }
    ensures { result.now ≡ at_address address sorted.now }
{
    let start = sorted.partition_point(|access| access.address < address);
    let end = sorted.partition_point(|access| access.address <= address);
    &sorted[start..end]
}

/// The addresses of operations.
fn addresses_of(alloc: Global, accesses: &[Access]) -> Result<BTreeSet<u64>, AllocError>
    ensures { IfOk result (λ set. (address : ℕ) →
        contains nat_cmp set address ≡ list_any (is_at address) accesses.now) }
{
    let mut addresses = BTreeSet::new(alloc);
    for access in accesses {
        addresses.insert(access.address)?;
    }
    Ok(addresses)
}

/// The addresses that a trace names.
fn named(alloc: Global, trace: &Trace) -> Result<BTreeSet<u64>, AllocError>
    ensures { IfOk result (λ set. (address : ℕ) →
        Names trace.now address ↔ contains nat_cmp set address ≡ true) }
{
    let mut addresses = addresses_of(alloc, &trace.accesses)?;
    for address in trace.last.keys() {
        addresses.insert(*address)?;
    }
    Ok(addresses)
}

/// How a trace is judged.
#[derive(Clone, Copy)]
pub struct Way {
    /// Whether what ended before another operation at its address began has to stand before it.
    pub timed: bool,
    /// Whether versions are taken from one order of all operations, where one is found.
    pub ordered: bool,
    /// How many choices a search makes at most: for such an order, and for one at an address where a word is written twice.
    pub limit: u64,
}

/// Versions of all operations by one order of them, if one was found.
#[inline(never)]
fn order_versions(alloc: Global, trace: &Trace, way: Way) -> Result<Vec<u64>, Stop> {
    let mut search = Search::new(alloc, &trace.accesses, way.timed, way.limit)?;
    for (address, word) in trace.last.iter() {
        search.end_with(*address, *word)?;
    }
    search.run(alloc)
}

/// At each address a guess at the versions of the operations there; none if they aren't to be of one order.
#[inline(never)]
fn guesses(alloc: Global, trace: &Trace, way: Way) -> Result<BTreeMap<u64, Vec<u64>>, AllocError> {
    let mut guesses = BTreeMap::new(alloc);
    if !way.ordered {
        return Ok(guesses);
    }
    let versions = match order_versions(alloc, trace, way) {
        Ok(versions) => versions,
        Err(Stop::Memory(error)) => return Err(error),
        Err(Stop::GaveUp | Stop::Refuted(_)) => return Ok(guesses),
    };
    for (access, version) in trace.accesses.iter().zip(versions.iter()) {
        match guesses.get_mut(&access.address) {
            Some(there) => there.push(*version)?,
            None => {
                guesses.insert(access.address, vec![in alloc; *version]?)?;
            }
        }
    }
    Ok(guesses)
}

/// Judges a trace: Coherent if the operations at each address are, with the last word there if it is known, and else the lowest
/// address at which they aren't, or at which nothing was found. Refused only if memory is.
#[inline(never)]
pub fn judge(alloc: Global, trace: &Trace, way: Way) -> Result<Judgement, AllocError>
    requires { AreKnown trace.now.accesses.items }
    ensures { IfOk result (IsJudgement way.timed trace.now) }
{
    let guesses = guesses(alloc, trace, way)?;
    let sorted = by_address(alloc, &trace.accesses)?;
    let addresses = named(alloc, trace)?;
    let mut explained = Vec::new(alloc);
    for at in addresses.iter() {
        let address = *at;
        let site = Site {
            accesses: operations_at(&sorted, address),
            last: trace.last.get(&address).copied(),
            timed: way.timed,
        };
        let guess = match guesses.get(&address) {
            Some(versions) => versions.as_slice(),
            None => &[],
        };
        match site.judge(alloc, way.limit, guess)? {
            Finding::Coherent { versions, freedom } => {
                explained.push(SiteVersions {
                    address,
                    versions,
                    freedom,
                })?;
            }
            Finding::NotCoherent(witness) => {
                let accesses = Vec::from_slice(alloc, site.accesses)?;
                return Ok(Judgement::NotCoherent {
                    address,
                    accesses,
                    witness,
                });
            }
            Finding::Undecided => return Ok(Judgement::Undecided { address }),
        }
    }
    Ok(Judgement::Coherent(explained))
}
