// The definitions that are open in each row, by row number: rows share parts, so nothing walks them as trees.
ghost use Rattle.std.specs.Prelude.{◌≡◌, ◌^◌, ◌<◌, ◌≤◌, length, Decides, if◌then◌else◌, nat_lt, slice_index};
ghost use Rattle.fault.specs.Judged.{Passes};
ghost use Rattle.model.specs.File.{rows, definitions};
ghost use Rattle.model.specs.Models.{drafted_file};
ghost use Rattle.model.specs.Opening.{open_set_lem, OpenedBelow};
ghost use Rattle.model.specs.Rules.{OpenOk, open_rule};

use crate::drafted::Drafted;
use crate::op::{Op, Row};
use fault::{Fault, Refusal, first};

// The set of a row, empty past the rows; a name for what three places read.
pub(crate) fn set_at(sets: &[u64], row: usize) -> u64
    ensures { result ≡ slice_index sets.now row }
{
    sets.get(row).copied().unwrap_or(0)
}

// The set of one definition.
fn name_set(definition: u16) -> u64
    ensures { result ≡ (if nat_lt definition 64 then 2 ^ definition else 0) }
{
    if definition < 64 { 1 << definition } else { 0 }
}

// The definitions open in a row, by those of the rows before it.
fn open_set(row: Row, sets: &[u64]) -> u64
    ensures { result ≡ open_set_lem row.op (slice_index sets.now row.left) (slice_index sets.now row.right) }
{
    let left = set_at(sets, row.left as usize);
    let right = set_at(sets, row.right as usize);
    match row.op {
        Op::Name(d) => name_set(d),
        Op::Sequence | Op::Hide(_) => left,
        Op::External | Op::Parallel(_) | Op::Interrupt => left | right,
        Op::Stop | Op::Skip | Op::Omega | Op::Prefix(_) | Op::Internal => 0,
    }
}

// Writes the open definitions of each row to a fixed array of the caller's, since settling allocates nothing and the
// array is large: one handed back would stand on the stack twice.
pub(crate) fn open_sets(draft: &Drafted, sets: &mut [u64; 4096])
    ensures { OpenedBelow (drafted_file draft.now) sets.new (rows (drafted_file draft.now)) }
{
    let file = draft.file;
    // An index, since a row reads the sets of earlier rows.
    for i in 0..file.rows() {
        let set = open_set(file.row_at(i as u32), sets);
        sets[i] = set;
    }
}

// Whether the body of definition d has only lower definitions open.
fn body_lower(draft: &Drafted, sets: &[u64], d: usize) -> bool
    requires known { OpenedBelow (drafted_file draft.now) sets.now (rows (drafted_file draft.now)) }
    requires there { d < definitions (drafted_file draft.now) }
    ensures { Decides result (OpenOk (drafted_file draft.now) d) }
{
    let body = draft.file.definition_at(d as u32);
    set_at(sets, body as usize) >> d == 0
}

// Whether the body of each definition has only lower definitions open.
pub(crate) fn check_opens(draft: &Drafted) -> Result<(), Fault>
    ensures { Passes (open_rule (drafted_file draft.now)) result }
{
    let mut sets = [0u64; 4096];
    open_sets(draft, &mut sets);
    first(
        |d| body_lower(draft, &sets, d),
        draft.file.definitions(),
        Refusal::ModelOpen,
    )
}
