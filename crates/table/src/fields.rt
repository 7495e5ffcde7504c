// The fields of a table's bytes, as they stand there; past the end stand zeros. A reader for each field, so that
// calls name what they read.
ghost use Rattle.std.specs.Prelude.{◌≡◌};
ghost use Rattle.table.specs.Form.{states, start, all_steps, offset, size, floor, spare, step};

use crate::step::Step;
use lent_bytes::{byte_at, u16_at, u32_at};

pub(crate) fn states_of(bytes: &[u8]) -> u16
    ensures { result ≡ states bytes.now }
{
    u16_at(bytes, 0)
}

pub(crate) fn start_of(bytes: &[u8]) -> u16
    ensures { result ≡ start bytes.now }
{
    u16_at(bytes, 2)
}

pub(crate) fn steps_in(bytes: &[u8]) -> u32
    ensures { result ≡ all_steps bytes.now }
{
    u32_at(bytes, 4)
}

pub(crate) fn offset_of(bytes: &[u8], state: u32) -> u32
    ensures { result ≡ offset bytes.now state }
{
    u32_at(bytes, 8 + 8 * state as usize)
}

pub(crate) fn size_of(bytes: &[u8], state: u32) -> u32
    ensures { result ≡ size bytes.now state }
{
    u32_at(bytes, 12 + 8 * state as usize)
}

// Where the steps of a state may begin: at the end of the pair before.
pub(crate) fn floor_of(bytes: &[u8], state: u32) -> u64
    ensures { result ≡ floor bytes.now state }
{
    state.checked_sub(1).map_or(0, |before| {
        offset_of(bytes, before) as u64 + size_of(bytes, before) as u64
    })
}

pub(crate) fn step_at(bytes: &[u8], place: u32) -> Step
    ensures { result ≡ step bytes.now place }
{
    let at = 8 + 8 * states_of(bytes) as usize + 4 * place as usize;
    Step {
        event: byte_at(bytes, at),
        target: u16_at(bytes, at + 2),
    }
}

// The byte of a step that is to be 0.
pub(crate) fn spare_at(bytes: &[u8], place: u32) -> u8
    ensures { result ≡ spare bytes.now place }
{
    byte_at(
        bytes,
        8 + 8 * states_of(bytes) as usize + 4 * place as usize + 1,
    )
}
