// The candidates of an operation: which are chosen, which one is being tried, and which comes next.
ghost use Rattle.std.specs.Prelude.{◌≡◌, not, ltb, drop, find, position};
ghost use Rattle.std.specs.List.{list_any};
ghost use Rattle.nib.specs.Neighbors.{entries_of};
ghost use Rattle.candidates.specs.Candidates.{items_of};
ghost use Rattle.candidates.specs.Tries.{chosen_from, tried_index, next_index, past_table, taking};

use crate::{CandidateList, select_candidates};
use nib::{CapabilityInformation, ExtendedPanId, NeighborTable};

// Indexes into the neighbour table. Of the first `taken` the last is being tried, and those before it have been tried or skipped.
// The others are still to be tried.
#[derive(Clone, Copy)]
pub struct Candidates {
    // the candidates that were chosen
    pub list: CandidateList,
    // how many of them have been taken
    pub taken: u8,
}

// The candidates for a parent in a table, none of them taken. The values of a request are parameters, as in `select_candidates`.
pub fn chosen_from(
    table: NeighborTable,
    stack_profile: u8,
    extended_pan_id: ExtendedPanId,
    capability_information: CapabilityInformation,
    require_permit_joining: bool,
) -> Candidates
    ensures { result ≡ chosen_from (entries_of table) stack_profile require_permit_joining extended_pan_id.0 capability_information }
{
    let list = select_candidates(
        table,
        stack_profile,
        extended_pan_id,
        capability_information.device_type(),
        require_permit_joining,
    );
    Candidates { list, taken: 0 }
}

// The indexes from a place on.
fn tail(list: &CandidateList, from: u8) -> &[u8]
    ensures { result.now ≡ drop from (items_of list.now) }
{
    list.used().get(from as usize..).unwrap_or(&[])
}

// The index being tried in a table of `count` entries, `count` where there is none.
// A number and no `Option`: at `count` the table has nothing to read or to change, so no caller tests which of the two it is.
// `count` and `candidates` go together here and in three more, and no struct: callers have the two at hand, and would make the struct for this one call.
pub fn tried_index(candidates: Candidates, count: u8) -> u8
    ensures { result ≡ tried_index count candidates }
{
    let taken = candidates.taken as usize;
    if taken == 0 {
        return count;
    }
    candidates
        .list
        .used()
        .get(taken - 1)
        .copied()
        .unwrap_or(count)
}

// The first index below a limit.
fn first_below(indexes: &[u8], limit: u8) -> Option<u8>
    ensures { result ≡ find (λ i. ltb i limit) indexes.now }
{
    indexes.iter().copied().find(|i| *i < limit)
}

// The next index to be tried in a table of `count` entries, `count` where there is none: those not below it are skipped. A number as above.
pub fn next_index(candidates: Candidates, count: u8) -> u8
    ensures { result ≡ next_index count candidates }
{
    first_below(tail(&candidates.list, candidates.taken), count).unwrap_or(count)
}

// Whether an index is not below a limit.
fn any_past(indexes: &[u8], limit: u8) -> bool
    ensures { result ≡ list_any (λ i. not (ltb i limit)) indexes.now }
{
    indexes.iter().any(|i| limit <= *i)
}

// Whether an index being tried or still to be tried is not below a count.
pub fn past_table(candidates: Candidates, count: u8) -> bool
    ensures { result ≡ past_table count candidates }
{
    let from = candidates.taken.saturating_sub(1);
    any_past(tail(&candidates.list, from), count)
}

// The place of the first index below a limit.
fn place_below(indexes: &[u8], limit: u8) -> Option<usize>
    ensures { result ≡ position (λ i. ltb i limit) indexes.now }
{
    indexes.iter().position(|i| *i < limit)
}

// The next candidate is taken, or all are where none is left.
pub fn take_next(candidates: Candidates, count: u8) -> Candidates
    ensures { result ≡ taking count candidates }
{
    let to_try = tail(&candidates.list, candidates.taken);
    let taken = match place_below(to_try, count) {
        Some(skipped) => candidates.taken + skipped as u8 + 1,
        None => candidates.list.used().len() as u8,
    };
    Candidates {
        taken,
        ..candidates
    }
}
