// Transition tables and normal tables as systems.
ghost use Rattle.std.specs.Prelude.{◌≡◌, Decides};
ghost use Rattle.systems.specs.Tables.{table_lts, taken};
ghost use Rattle.systems.specs.Keeping.{table_keeps, table_keeps_lone};

use crate::system::{Normal, System};
use table::{NormalTable, Step, Table};

// A step of a table, as a system answers it. (A `From` would stand in `table`, and a
// pair of numbers would not say there which is the event.)
fn answer(step: Step) -> (u8, u16)
    ensures { result ≡ taken step }
{
    (step.event, step.target)
}

impl System for Table<'_> {
    type State = u16;

    ghost means = { λ m. table_lts m.bytes.now };

    ghost kind = { λ x y e. e };

    ghost lawful = { λ m. table_keeps m.bytes.now m.pairs m.formed m.ended };

    fn start(&self) -> u16 {
        self.start()
    }

    fn step(&self, at: u16, k: usize) -> Option<(u8, u16)> {
        self.step(at, k).map(answer)
    }
}

// A normal table answers as its table. (Written out, not shared, since each answer is one line already.)
impl System for NormalTable<'_> {
    type State = u16;

    ghost means = { λ m. table_lts m.table.bytes.now };

    ghost kind = { λ x y e. e };

    ghost lawful = { λ m. table_keeps m.table.bytes.now m.table.pairs m.table.formed m.table.ended };

    fn start(&self) -> u16 {
        Table::start(self)
    }

    fn step(&self, at: u16, k: usize) -> Option<(u8, u16)> {
        Table::step(self, at, k).map(answer)
    }
}

impl Normal for NormalTable<'_> {
    ghost lone = { λ m. table_keeps_lone m.table.bytes.now m.normal };

    fn after(&self, at: u16, event: u8) -> Option<u16> {
        self.after(at, event)
    }
}
