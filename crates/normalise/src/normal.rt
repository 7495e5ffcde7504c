// Normalising a table: its checks, then its nodes, then the bytes of their table.
ghost use Rattle.std.specs.Prelude.{◌≡◌, ℕ, ◌≤◌, min, length, slice_index};
ghost use Rattle.first_seen.specs.Cleared.{cleared};
ghost use Rattle.table.specs.Form.{start};
ghost use Rattle.systems.specs.Meaning.{Steps};
ghost use Rattle.systems.specs.Tables.{table_lts};
ghost use Rattle.sets.specs.Members.{blank_set};
ghost use Rattle.normalise.specs.Made.{Built, Fills, Normalised};

use crate::small::{Nodes, Small};
use fault::{Fault, Refusal};
use first_seen::{Clearing, FirstSeen, Unfinished, clear};
use sets::StateSet;
use table::{Table, check};

const NODES: usize = 65535;

impl Small<'_> {
    // The nodes, then their table in zeros.
    fn build(&self, rows: &mut [StateSet], out: &mut [u8]) -> Option<usize>
        requires few { length rows.old ≤ 65535 }
        requires zero { (j : ℕ) → slice_index out.old j ≡ 0 }
        ensures { Built (Steps (table_lts self.now.table.bytes.now)) (start self.now.table.bytes.now) (length rows.old) (length out.old) out.new result }
    {
        let mut nodes = FirstSeen::over(rows, 0);
        self.explore(&mut nodes).ok()?;
        let sets = nodes.items();
        Nodes { of: *self, sets }.write(out)
    }

    // The same in any buffer, which is zero where there is no room.
    fn fill(&self, rows: &mut [StateSet], out: &mut [u8]) -> Result<usize, Fault>
        ensures { Fills (Steps (table_lts self.now.table.bytes.now)) (start self.now.table.bytes.now) (min (length rows.old) 65535) out.old out.new result }
    {
        let mut guard = Unfinished { out };
        clear(guard.out);
        let most = rows.len().min(NODES);
        let size = self
            .build(&mut rows[..most], guard.out)
            .ok_or(Refusal::NormaliseRoom)?;
        guard.done();
        Ok(size)
    }
}

// Normalising any bytes.
fn checked(bytes: &[u8], rows: &mut [StateSet], out: &mut [u8]) -> Result<usize, Fault>
    ensures { Normalised bytes.now (length rows.old) out.old out.new result }
{
    check(bytes)?;
    let table = Table::take_up(bytes);
    Small::of(&table)?.fill(rows, out)
}

// Writes the normal table of a table to the buffer and tells its size. Node 0 is the start closed under tau; nodes
// are taken in order and events ascending, and an event leads to its successors closed under tau, if there are any.
// The set rows are blank on every way out.
pub fn normalise(bytes: &[u8], rows: &mut [StateSet], out: &mut [u8]) -> Result<usize, Fault>
    ensures value { Normalised bytes.now (length rows.old) out.old out.new result }
    ensures blank { rows.new ≡ cleared blank_set rows.old }
{
    let guard = Clearing { rows };
    checked(bytes, guard.rows, out)
}
