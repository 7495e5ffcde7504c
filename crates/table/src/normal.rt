// The check of a normal table: that of a table, and then that no state has a tau or an event twice.
ghost use Rattle.std.specs.Prelude.{◌≡◌, Decides};
ghost use Rattle.fault.specs.Judged.{Passes, Exact};
ghost use Rattle.table.specs.Rules.{NormalAt, normal_rule, normal_rules};

use crate::checking::check;
use crate::view::Table;
use fault::{Fault, Refusal, first};
use lent_bytes::bit_at;

// Whether a state's list has no tau and no event twice: the bits of `met` are the events met so far, and
// tau is among them from the start.
fn is_fresh(table: &Table, state: u16) -> bool
    ensures { Decides result (NormalAt table.now.bytes.now state) }
{
    let mut met: u64 = 1;
    for step in table.steps(state) {
        if bit_at(met, step.event as usize) {
            return false;
        }
        met |= 1u64 << step.event;
    }
    true
}

// The lists, by state.
fn check_lists(table: &Table) -> Result<(), Fault>
    ensures { Passes (normal_rule table.now.bytes.now) result }
{
    let places = table.states() as usize;
    first(
        |state| is_fresh(table, state as u16),
        places,
        Refusal::TableNormal,
    )
}

// Whether the bytes are a normal table; if not, the first rule they break, and the first place.
pub fn check_normal(bytes: &[u8]) -> Result<(), Fault>
    ensures { Exact (normal_rules bytes.now) result }
{
    check(bytes)?;
    check_lists(&Table { bytes })
}
