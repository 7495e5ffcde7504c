// How large the table of the states found is.
ghost use Rattle.std.specs.Prelude.{◌≡◌, ℕ, ◌+◌, ◌*◌, ◌≤◌, MatchResult};
ghost use Rattle.model.specs.File.{process};
ghost use Rattle.model.specs.Models.{settled_file};
ghost use Rattle.process.specs.Explored.{Searching};
ghost use Rattle.process.specs.Loaded.{WantsIn};
ghost use Rattle.process.specs.Ordered.{order_in, steps_in};

use crate::slots::NoRoom;
use crate::term_rows::TermRows;

impl TermRows<'_> {
    // How many steps the states have together.
    fn all_steps(&self, start: u16, n: usize) -> usize
        requires { Searching (settled_file self.now.model.now) start self.now.rows.now self.now.work.now n n }
        ensures value { result ≡ steps_in self.now.work.now (order_in self.now.work.now n) }
        ensures few { result ≤ 256 * n }
    {
        let mut all = 0;
        for r in &self.work.order[0..n] {
            all += self.work.known(*r).unwrap();
        }
        all
    }

    // The bytes of the table: 8, then 8 for each state and 4 for each step. Refused when they pass the room.
    pub(crate) fn table_size(&self, start: u16, n: usize, room: usize) -> Result<usize, NoRoom>
        requires { Searching (settled_file self.now.model.now) start self.now.rows.now self.now.work.now n n }
        ensures { MatchResult result (λ s. (s ≡ 8 + 8 * n + 4 * steps_in self.now.work.now (order_in self.now.work.now n)) × (s ≤ room)) (λ _. (cap : ℕ) → WantsIn (settled_file self.now.model.now) (process (settled_file self.now.model.now) start) cap room) }
    {
        let size = 8 + 8 * n + 4 * self.all_steps(start, n);
        if size > room {
            return Err(NoRoom);
        }
        Ok(size)
    }
}
