// The steps of a state, one after another. (Written out, not shared, since tables stand below `systems`, which has
// the same for every system: one text for both would take one trait more and an impl for each.)
ghost use Rattle.std.specs.Prelude.{drop};
ghost use Rattle.std.specs.Iterator.{YieldsFirst, item_count};
ghost use Rattle.table.specs.Form.{steps_of};

use crate::step::Step;
use crate::view::Table;

// What is left of a state's list: the steps from entry `k` on.
#[derive(Clone, Copy)]
pub struct StepsOf<'a> {
    pub(crate) table: Table<'a>,
    pub(crate) state: u16,
    pub(crate) k: usize,
}

impl Iterator for StepsOf<'_> {
    type Item = Step;

    ghost next_gives = { YieldsFirst (λ s. drop s.k (steps_of s.table.bytes.now s.state)) };

    ghost remaining = { item_count (λ s. drop s.k (steps_of s.table.bytes.now s.state)) };

    fn next(&mut self) -> Option<Step> {
        let step = self.table.step(self.state, self.k)?;
        self.k += 1;
        Some(step)
    }
}
