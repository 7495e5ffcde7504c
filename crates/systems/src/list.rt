// The steps of a state, one after another.
ghost use Rattle.std.specs.Prelude.{◌≡◌, drop};
ghost use Rattle.std.specs.Iterator.{YieldsFirst, item_count};

use crate::system::System;

// What is left of a state's list: the steps from entry `k` on.
#[derive(Drop)]
pub struct StepsAt<'a, D: System> {
    system: &'a D,
    at: D::State,
    k: usize,
}

// The steps of a state, in their order.
pub fn steps_of<D: System>(system: &D, at: D::State) -> StepsAt<'_, D>
    ensures { drop result.k ((D.means result.system.now).steps result.at) ≡ (D.means system.now).steps at }
{
    StepsAt { system, at, k: 0 }
}

impl<D: System> Iterator for StepsAt<'_, D> {
    type Item = (u8, D::State);

    ghost next_gives = { YieldsFirst (λ s. drop s.k ((D.means s.system.now).steps s.at)) };

    ghost remaining = { item_count (λ s. drop s.k ((D.means s.system.now).steps s.at)) };

    fn next(&mut self) -> Option<(u8, D::State)> {
        let step = self.system.step(self.at, self.k)?;
        self.k += 1;
        Some(step)
    }
}
