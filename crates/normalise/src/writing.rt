// Writing the normal table of the nodes to a buffer of zeros.
ghost use Rattle.std.specs.Prelude.{◌≡◌, ℕ, ◌+◌, ◌*◌, ◌<◌, ◌≤◌, length, slice_index};
ghost use Rattle.table.specs.Form.{start};
ghost use Rattle.systems.specs.Meaning.{Steps};
ghost use Rattle.systems.specs.Tables.{table_lts};
ghost use Rattle.normalise.specs.Made.{TableWritten};
ghost use Rattle.normalise.specs.Nodes.{Complete};
ghost use Rattle.normalise.specs.Writing.{Led, Head, Written, ListWritten, AllWritten};

use crate::puts::{put, put_pair, put_step};
use crate::small::Nodes;
use first_seen::find;
use table::LARGEST;

// That the sets are all nodes stays a clause of these: a ghost field holds a fact that has one proof at most, and a
// proof of this one tells from which node and by which event each is reached, which the others need.
impl Nodes<'_> {
    // The node that the event leads to from node n, or nothing.
    fn target(&self, n: usize, event: u8) -> Option<usize>
        requires inside { n < length self.now.sets.now }
        requires loud { 0 < event }
        requires low { event < 64 }
        requires nodes { Complete (Steps (table_lts self.now.of.table.bytes.now)) (start self.now.of.table.bytes.now) self.now.sets.now }
        ensures { Led (Steps (table_lts self.now.of.table.bytes.now)) self.now.sets.now (length self.now.sets.now) n event result }
    {
        let set = self.of.advance(&self.sets[n], event);
        if set.is_empty() {
            return None;
        }
        find(self.sets, &set)
    }

    // Writes the steps of node n, events ascending, after the steps of the nodes before it, and tells how many they
    // are, or nothing for want of room.
    fn write_list(&self, n: usize, begun: usize, out: &mut [u8]) -> Option<usize>
        requires inside { n < length self.now.sets.now }
        requires nodes { Complete (Steps (table_lts self.now.of.table.bytes.now)) (start self.now.of.table.bytes.now) self.now.sets.now }
        requires head { Head (length self.now.sets.now) out.old begun }
        requires written { Written (Steps (table_lts self.now.of.table.bytes.now)) self.now.sets.now (length self.now.sets.now) out.old n begun }
        ensures { ListWritten (Steps (table_lts self.now.of.table.bytes.now)) (start self.now.of.table.bytes.now) self.now.sets.now (length self.now.sets.now) (length out.old) out.new n begun result }
    {
        let room = out.len().min(LARGEST);
        // Counted, since a step's place is by how many were written before it.
        let mut count = 0;
        for event in 1..64u8 {
            if let Some(k) = self.target(n, event) {
                let place = 8 + 8 * self.sets.len() + 4 * (begun + count);
                if place + 4 > room {
                    return None;
                }
                put_step(out, place, event, k as u16);
                count += 1;
            }
        }
        Some(count)
    }

    // Writes the lists of all nodes and their pairs, and tells how many steps there are.
    fn write_lists(&self, out: &mut [u8]) -> Option<usize>
        requires nodes { Complete (Steps (table_lts self.now.of.table.bytes.now)) (start self.now.of.table.bytes.now) self.now.sets.now }
        requires head { Head (length self.now.sets.now) out.old 0 }
        ensures { AllWritten (Steps (table_lts self.now.of.table.bytes.now)) (start self.now.of.table.bytes.now) self.now.sets.now (length self.now.sets.now) (length out.old) out.new result }
    {
        let mut steps = 0;
        // By numbers: a node's number is the place of its pair, and its list is asked by it.
        for n in 0..self.sets.len() {
            let count = self.write_list(n, steps, out)?;
            put_pair(out, 8 + 8 * n, steps as u32, count as u32);
            steps += count;
        }
        Some(steps)
    }

    // Writes the table of all nodes to zeros, and tells its size, or nothing for want of room.
    pub(crate) fn write(&self, out: &mut [u8]) -> Option<usize>
        requires nodes { Complete (Steps (table_lts self.now.of.table.bytes.now)) (start self.now.of.table.bytes.now) self.now.sets.now }
        requires zero { (j : ℕ) → slice_index out.old j ≡ 0 }
        ensures { TableWritten (Steps (table_lts self.now.of.table.bytes.now)) (start self.now.of.table.bytes.now) self.now.sets.now (length self.now.sets.now) (length out.old) out.new result }
    {
        let len = self.sets.len();
        let room = out.len().min(LARGEST);
        if 8 + 8 * len > room {
            return None;
        }
        put(out, 0, (len as u16).to_be_bytes());
        let steps = self.write_lists(out)?;
        put(out, 4, (steps as u32).to_be_bytes());
        Some(8 + 8 * len + 4 * steps)
    }
}
