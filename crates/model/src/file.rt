// Reading a model file. Every read is total: an index past a section answers nothing.
ghost use Rattle.std.specs.Prelude.{◌≡◌, ℕ, ◌+◌, ◌*◌, ◌^◌, ◌<◌, ◌≤◌, if◌then◌else◌, Some, None, nat_lt};
ghost use Rattle.model.specs.File.{events as events_of, offset, size, masks as masks_in, rows as rows_in, definitions as definitions_in, mask_at_lem, definition_at_lem, row_place_lem, row_bytes_lem, op_at_lem, left_at_lem, right_at_lem, spare_at_lem, argument_at_lem, row_with_lem, row_at};
ghost use Rattle.model.specs.Sections.{place};

use crate::op::{Op, Row};
use crate::section::Section;
use lent_bytes::{byte_at, u16_at, u32_at, u64_at};

// The bytes of a model file, checked or not.
#[derive(Clone, Copy)]
pub struct File<'a> {
    pub bytes: &'a [u8],
}

// The row of an operator with the given fields.
fn row_with(op: Op, left: u16, right: u16) -> Row
    ensures { result ≡ row_with_lem op left right }
{
    let shape = op.shape();
    Row {
        op,
        left: shape.left.part_or_default(left),
        right: shape.right.part_or_default(right),
    }
}

impl File<'_> {
    // The number of visible events: they are 2 to events + 1.
    pub fn events(&self) -> u8
        ensures { result ≡ events_of self.now.bytes.now }
    {
        byte_at(self.bytes, 2)
    }

    // Where a section begins.
    pub(crate) fn offset(&self, section: Section) -> u32
        ensures { result ≡ offset self.now.bytes.now (place section) }
    {
        u32_at(self.bytes, section.head())
    }

    // How many bytes a section has.
    pub(crate) fn size(&self, section: Section) -> u32
        ensures { result ≡ size self.now.bytes.now (place section) }
    {
        u32_at(self.bytes, section.head() + 4)
    }

    // A count for each section, since each says its own bound.
    pub fn masks(&self) -> usize
        ensures value { result ≡ masks_in self.now.bytes.now }
        ensures bound { result < 2 ^ 29 }
    {
        self.size(Section::Masks) as usize / 8
    }

    pub fn rows(&self) -> usize
        ensures value { result ≡ rows_in self.now.bytes.now }
        ensures bound { result < 2 ^ 29 }
    {
        self.size(Section::Rows) as usize / 8
    }

    pub fn definitions(&self) -> usize
        ensures value { result ≡ definitions_in self.now.bytes.now }
        ensures bound { result < 2 ^ 31 }
    {
        self.size(Section::Definitions) as usize / 2
    }

    // The bits of mask k: the bit of value 2^i stands for event i. An `if` here and in the next two, since `bool::then`
    // reads no plainer and leaves its answer to be proved.
    pub fn mask(&self, k: usize) -> Option<u64>
        ensures { result ≡ (if nat_lt k (masks_in self.now.bytes.now) then Some (mask_at_lem self.now.bytes.now k) else None) }
    {
        if k < self.masks() {
            Some(self.mask_at(k as u32))
        } else {
            None
        }
    }

    // Row i as a process over earlier rows.
    pub fn row(&self, i: usize) -> Option<Row>
        ensures { result ≡ (if nat_lt i (rows_in self.now.bytes.now) then Some (row_at self.now.bytes.now i) else None) }
    {
        if i < self.rows() {
            Some(self.row_at(i as u32))
        } else {
            None
        }
    }

    // The row of definition d's body.
    pub fn definition(&self, d: usize) -> Option<u16>
        ensures { result ≡ (if nat_lt d (definitions_in self.now.bytes.now) then Some (definition_at_lem self.now.bytes.now d) else None) }
    {
        if d < self.definitions() {
            Some(self.definition_at(d as u32))
        } else {
            None
        }
    }

    pub(crate) fn mask_at(&self, k: u32) -> u64
        ensures { result ≡ mask_at_lem self.now.bytes.now k }
    {
        u64_at(
            self.bytes,
            self.offset(Section::Masks) as usize + 8 * k as usize,
        )
    }

    pub(crate) fn definition_at(&self, d: u32) -> u16
        ensures { result ≡ definition_at_lem self.now.bytes.now d }
    {
        u16_at(
            self.bytes,
            self.offset(Section::Definitions) as usize + 2 * d as usize,
        )
    }

    pub(crate) fn row_place(&self, i: u32) -> usize
        ensures value { result ≡ row_place_lem self.now.bytes.now i }
        ensures bound { result < 2 ^ 40 }
    {
        self.offset(Section::Rows) as usize + 8 * i as usize
    }

    // The eight bytes of row i as one number.
    pub(crate) fn row_bytes(&self, i: u32) -> u64
        ensures { result ≡ row_bytes_lem self.now.bytes.now i }
    {
        u64_at(self.bytes, self.row_place(i))
    }

    pub(crate) fn argument_at(&self, i: u32) -> u8
        ensures { result ≡ argument_at_lem self.now.bytes.now i }
    {
        byte_at(self.bytes, self.row_place(i) + 1)
    }

    // A reader for each field, so that calls name it.
    pub(crate) fn left_at(&self, i: u32) -> u16
        ensures { result ≡ left_at_lem self.now.bytes.now i }
    {
        u16_at(self.bytes, self.row_place(i) + 2)
    }

    pub(crate) fn right_at(&self, i: u32) -> u16
        ensures { result ≡ right_at_lem self.now.bytes.now i }
    {
        u16_at(self.bytes, self.row_place(i) + 4)
    }

    pub(crate) fn spare_at(&self, i: u32) -> u16
        ensures { result ≡ spare_at_lem self.now.bytes.now i }
    {
        u16_at(self.bytes, self.row_place(i) + 6)
    }

    // The operator of row i, if its kind is one.
    pub(crate) fn op_at(&self, i: u32) -> Option<Op>
        ensures { result ≡ op_at_lem self.now.bytes.now i }
    {
        Op::of(
            byte_at(self.bytes, self.row_place(i)),
            self.argument_at(i),
            self.left_at(i),
        )
    }

    pub(crate) fn row_at(&self, i: u32) -> Row
        ensures { result ≡ row_at self.now.bytes.now i }
    {
        // By arms, as `row_from` of the specs has them: a chain over the `Option` is no plainer.
        match self.op_at(i) {
            None => Row::default(),
            Some(op) => row_with(op, self.left_at(i), self.right_at(i)),
        }
    }
}
