// Tables of at most 256 states.
ghost use Rattle.std.specs.Prelude.{◌≡◌, ◌<◌, ◌≤◌, length, MatchResult};
ghost use Rattle.fault.specs.Judged.{fault};
ghost use Rattle.fault.specs.declared.refusal.Refusal.TheVariants.{NormaliseStates};
ghost use Rattle.table.specs.Form.{states};

use fault::{Fault, Refusal};
use sets::StateSet;
use table::Table;

const MOST: u16 = 256;

// A table whose states a set can hold.
#[derive(Clone, Copy)]
pub(crate) struct Small<'a> {
    pub(crate) table: Table<'a>,
    ghost few: { states table.bytes.now ≤ 256 },
}

impl<'a> Small<'a> {
    // A table of over 256 states is refused.
    pub(crate) fn of(table: &Table<'a>) -> Result<Small<'a>, Fault>
        ensures value { MatchResult result (λ t. t.table ≡ table.now) (λ f. f ≡ fault NormaliseStates 0) }
        ensures refused { MatchResult result (λ _. states table.now.bytes.now ≤ 256) (λ _. 256 < states table.now.bytes.now) }
    {
        if table.states() > MOST {
            return Err(Refusal::NormaliseStates.into());
        }
        Ok(Small { table: *table })
    }
}

// The nodes of a table, in the order in which they were found; their numbers fit a table's states.
#[derive(Clone, Copy)]
pub(crate) struct Nodes<'a> {
    pub(crate) of: Small<'a>,
    pub(crate) sets: &'a [StateSet],
    ghost few: { length sets.now ≤ 65535 },
}
