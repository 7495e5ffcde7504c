// The check of a transition table: its length, then each pair, then each step.
ghost use Rattle.std.specs.Prelude.{◌≡◌, ◌<◌, Decides};
ghost use Rattle.fault.specs.Judged.{Passes, Exact};
ghost use Rattle.table.specs.Form.{states, start};
ghost use Rattle.table.specs.Rules.{PairOk, Formed, Ended, StepOk, length_rule, pair_rule, step_rule, table_rules};

use crate::fields::{
    floor_of, offset_of, size_of, spare_at, start_of, states_of, step_at, steps_in,
};
use fault::{Fault, Refusal, first};

// The most bytes of a table.
pub const LARGEST: usize = 1048576;

fn check_length(bytes: &[u8]) -> Result<(), Fault>
    ensures { Passes (length_rule bytes.now) result }
{
    let told = 8 + 8 * states_of(bytes) as usize + 4 * steps_in(bytes) as usize;
    if bytes.len() >= 8 && bytes.len() == told && bytes.len() <= LARGEST {
        Ok(())
    } else {
        Err(Refusal::TableLength.into())
    }
}

// At place 0: the start is a state.
fn starts_well(bytes: &[u8], state: u32) -> bool
    ensures { Decides result (state ≡ 0 → start bytes.now < states bytes.now) }
{
    state != 0 || start_of(bytes) < states_of(bytes)
}

fn pair_fits(bytes: &[u8], state: u32) -> bool
    ensures { Decides result (PairOk bytes.now state) }
{
    let offset = offset_of(bytes, state) as u64;
    let size = size_of(bytes, state) as u64;
    starts_well(bytes, state)
        && floor_of(bytes, state) <= offset
        && offset + size <= steps_in(bytes) as u64
        && size <= 256
}

// The pairs, by state.
fn check_pairs(bytes: &[u8]) -> Result<(), Fault>
    ensures { Passes (pair_rule bytes.now) result }
{
    let places = states_of(bytes).max(1) as usize;
    first(
        |state| pair_fits(bytes, state as u32),
        places,
        Refusal::TablePair,
    )
}

fn formed(bytes: &[u8], place: u32) -> bool
    ensures { Decides result (Formed bytes.now place) }
{
    let step = step_at(bytes, place);
    step.event < 64 && spare_at(bytes, place) == 0 && step.target < states_of(bytes)
}

// Tick leads to a state without steps.
fn ends_well(bytes: &[u8], place: u32) -> bool
    ensures { Decides result (Ended bytes.now place) }
{
    let step = step_at(bytes, place);
    step.event != 1 || size_of(bytes, step.target as u32) == 0
}

fn step_fits(bytes: &[u8], place: u32) -> bool
    ensures { Decides result (StepOk bytes.now place) }
{
    formed(bytes, place) && ends_well(bytes, place)
}

// The steps, those in gaps too.
fn check_steps(bytes: &[u8]) -> Result<(), Fault>
    ensures { Passes (step_rule bytes.now) result }
{
    let places = steps_in(bytes) as usize;
    first(
        |place| step_fits(bytes, place as u32),
        places,
        Refusal::TableStep,
    )
}

// Whether the bytes are a transition table; if not, the first rule they break, and the first place.
pub fn check(bytes: &[u8]) -> Result<(), Fault>
    ensures { Exact (table_rules bytes.now) result }
{
    check_length(bytes)?;
    check_pairs(bytes)?;
    check_steps(bytes)
}
