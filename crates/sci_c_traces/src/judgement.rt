//! What the judge says, as a struct.

ghost use Rattle.std.specs.Prelude.{◌≡◌, IfOk};
ghost use Rattle.std.specs.List.{flat_map};
ghost use Rattle.sci_c_traces.specs.Judgement.{consistency_number, freedom_number, id_at, judgement_struct, named_ids, step_places, witness_number, witness_places};

use sci_judge::{
    Access, Consistency, Judgement, Link, SiteVersions, Step, Trace, Witness, are_free, are_unknown,
};
use std::alloc::{AllocError, Global};

/// What the judge says of a trace. `kind` is 0 if it is coherent, 1 if it isn't at `address`, and 2 if nothing was found of the
/// operations there. Of a coherent trace `freedom` says whether its versions are forced, and `consistency` whether one order
/// explains all operations. Else `witness` says what shows that it isn't coherent. `named` operations are named.
#[repr(C)]
#[derive(Clone, Copy)]
pub struct SciJudgement {
    pub kind: u32,
    pub freedom: u32,
    pub consistency: u32,
    pub witness: u32,
    pub address: u64,
    pub named: u64,
}

/// Whether versions are forced.
fn freedom_out(sites: &[SiteVersions]) -> u32
    ensures { result ≡ freedom_number sites.now }
{
    if are_free(sites) {
        1
    } else if are_unknown(sites) {
        2
    } else {
        0
    }
}

/// Whether one order explains all operations.
fn consistency_out(consistency: &Option<Consistency>) -> u32
    ensures { result ≡ consistency_number consistency.now }
{
    match consistency {
        None => 0,
        Some(Consistency::Sequential) => 1,
        Some(Consistency::Cycle(_)) => 2,
        Some(Consistency::NotSequential) => 3,
        Some(Consistency::Unknown) => 4,
    }
}

/// The kind of a witness.
fn witness_out(witness: &Witness) -> u32
    ensures { result ≡ witness_number witness.now }
{
    match witness {
        Witness::Unwritten(_) => 1,
        Witness::UnwrittenLast => 2,
        Witness::Early { .. } => 3,
        Witness::Circle(_) => 4,
        Witness::Round { .. } => 5,
    }
}

/// The struct of a judgement that names some operations.
pub(crate) fn judgement_out(
    judgement: &Judgement,
    consistency: &Option<Consistency>,
    named: u64,
) -> SciJudgement
    ensures { result ≡ judgement_struct judgement.now consistency.now named }
{
    let nothing = SciJudgement {
        kind: 0,
        freedom: 0,
        consistency: 0,
        witness: 0,
        address: 0,
        named,
    };
    match judgement {
        Judgement::Coherent(sites) => SciJudgement {
            freedom: freedom_out(sites),
            consistency: consistency_out(consistency),
            ..nothing
        },
        Judgement::NotCoherent {
            address,
            witness,
            ..
        } => SciJudgement {
            kind: 1,
            witness: witness_out(witness),
            address: *address,
            ..nothing
        },
        Judgement::Undecided { address } => SciJudgement {
            kind: 2,
            address: *address,
            ..nothing
        },
    }
}

/// The number by which the caller names the operation at a place.
fn id_of(accesses: &[Access], place: usize) -> u64
    ensures { result ≡ id_at accesses.now place }
{
    match accesses.get(place) {
        Some(access) => access.line as u64,
        None => 0,
    }
}

/// The places that steps name.
fn circle_places(alloc: Global, steps: &[Step]) -> Result<Vec<usize>, AllocError>
    ensures { IfOk result (λ places. places.items ≡ flat_map step_places steps.now) }
{
    let mut places = Vec::new(alloc);
    for step in steps {
        match *step {
            Step::Follows { earlier, later } => {
                places.push(earlier)?;
                places.push(later)?;
            }
            Step::Swaps(place)
            | Step::Falls(place)
            | Step::Rises(place)
            | Step::Starts(place)
            | Step::Ends(place) => places.push(place)?,
        }
    }
    Ok(places)
}

/// The places that a witness names.
fn places_of(alloc: Global, witness: &Witness) -> Result<Vec<usize>, AllocError>
    ensures { IfOk result (λ places. places.items ≡ witness_places witness.now) }
{
    match witness {
        Witness::Unwritten(reader) => Ok(vec![in alloc; *reader]?),
        Witness::UnwrittenLast => Ok(Vec::new(alloc)),
        Witness::Early { reader, writer } => Ok(vec![in alloc; *reader, *writer]?),
        Witness::Circle(steps) => circle_places(alloc, steps),
        Witness::Round { maker, through } => {
            let mut places = vec![in alloc; *maker]?;
            places.extend_from_slice(through)?;
            Ok(places)
        }
    }
}

/// The operations that a verdict names.
pub(crate) fn ids_of(
    alloc: Global,
    trace: &Trace,
    judgement: &Judgement,
    consistency: &Option<Consistency>,
) -> Result<Vec<u64>, AllocError>
    ensures { IfOk result (λ ids. ids.items ≡ named_ids trace.now judgement.now consistency.now) }
{
    match (judgement, consistency) {
        (Judgement::Coherent(_), Some(Consistency::Cycle(links))) => {
            let accesses = trace.accesses.as_slice();
            links
                .iter()
                .map(|link| id_of(accesses, link.place))
                .collect(alloc)
        }
        (
            Judgement::NotCoherent {
                accesses,
                witness,
                ..
            },
            _,
        ) => {
            let places = places_of(alloc, witness)?;
            places
                .iter()
                .map(|place| id_of(accesses, *place))
                .collect(alloc)
        }
        _ => Ok(Vec::new(alloc)),
    }
}
