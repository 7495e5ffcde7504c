// The heights of the processes, by row number: rows share parts, so nothing walks them as trees.
ghost use Rattle.std.specs.Prelude.{◌≤◌};
ghost use Rattle.fault.specs.Judged.{Everywhere, Passes};
ghost use Rattle.model.specs.File.{rows};
ghost use Rattle.model.specs.Rules.{row_rule, height_rule};

use crate::file::File;
use fault::{Fault, Refusal};
use lent_bytes::byte_at;

// Whether no process is higher than 64.
pub(crate) fn check_heights(file: File) -> Result<(), Fault>
    requires few { rows file.bytes.now ≤ 4096 }
    requires fit { Everywhere (row_rule file.bytes.now) }
    ensures { Passes (height_rule file.entry.bytes.now) result }
{
    // A fixed array, since the check allocates nothing; an index, since a row reads the heights of earlier rows. The
    // same rule over term rows is in the crate `process`, where the heights stand in its workspace.
    let mut heights = [0u8; 4096];
    for place in 0..file.rows() {
        let row = file.row_at(place as u32);
        let shape = row.op.shape();
        let left = shape
            .left
            .part_or_default(byte_at(&heights, row.left as usize));
        let right = shape
            .right
            .part_or_default(byte_at(&heights, row.right as usize));
        let high = left.max(right);
        if high >= 64 {
            return Err(Fault {
                refusal: Refusal::FileHeight,
                place,
            });
        }
        heights[place] = high + 1;
    }
    Ok(())
}
