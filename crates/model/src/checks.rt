// Whether a model file is well formed: the conditions of refusals 1 to 8, tried in order.
ghost use Rattle.std.specs.Prelude.{◌+◌, ◌^◌, ◌<◌, ◌≡◌, Decides};
ghost use Rattle.fault.specs.Judged.{Exact, Judged, Passes};
ghost use Rattle.model.specs.Rules.{floor, FieldOk, FieldsOk, RowOk, RowNew, PairOk, MaskOk, DefinitionOk, LengthOk, HeadOk, length_rule, head_rule, pair_rule, mask_rule, row_rule, repeat_rule, definition_rule, file_rules, rules_in_order};
ghost use Rattle.model.specs.Sections.{place};

use crate::file::File;
use crate::heights::check_heights;
use crate::op::{Op, Use};
use crate::section::{SECTIONS, Section};
use fault::{Fault, Refusal, first};
use lent_bytes::{byte_at, u16_at};

// No bit of the mask from event e + 2 on.
fn within(mask: u64, e: u8) -> bool
    ensures { Decides result (mask < 2 ^ (e + 2)) }
{
    e >= 62 || mask >> (e + 2) == 0
}

impl File<'_> {
    fn length_ok(&self) -> bool
        ensures { Decides result (LengthOk self.now.bytes.now) }
    {
        self.bytes.len() >= 28 && self.bytes.len() <= 65536
    }

    fn head_ok(&self) -> bool
        ensures { Decides result (HeadOk self.now.bytes.now) }
    {
        u16_at(self.bytes, 0) == 1 && self.events() <= 62 && byte_at(self.bytes, 3) == 3
    }

    // Where a section ends.
    fn end(&self, section: Section) -> u64
        ensures { result ≡ floor self.now.bytes.now (place section + 1) }
    {
        self.offset(section) as u64 + self.size(section) as u64
    }

    // Where a section may begin.
    fn floor(&self, section: Section) -> u64
        ensures { result ≡ floor self.now.bytes.now (place section) }
    {
        match section {
            Section::Masks => 28,
            Section::Rows => self.end(Section::Masks),
            Section::Definitions => self.end(Section::Rows),
        }
    }

    fn pair_ok(&self, section: Section) -> bool
        ensures { Decides result (PairOk self.now.bytes.now (place section)) }
    {
        let size = self.size(section);
        let unit = section.unit();
        self.floor(section) <= self.offset(section) as u64
            && self.end(section) <= self.bytes.len() as u64
            && size % unit == 0
            && section.least() <= size / unit
            && size / unit <= section.most()
    }

    fn mask_ok(&self, k: u32) -> bool
        ensures { Decides result (MaskOk self.now.bytes.now k) }
    {
        let mask = self.mask_at(k);
        mask % 4 == 0 && within(mask, self.events())
    }

    // Whether a value may stand in a field of row i.
    fn field_ok(&self, i: u32, field: Use, value: u16) -> bool
        ensures { Decides result (FieldOk self.now.bytes.now i field value) }
    {
        match field {
            Use::Unused => value == 0,
            Use::Event => 2 <= value && value < self.events() as u16 + 2,
            Use::Mask => (value as usize) < self.masks(),
            Use::Part => (value as u32) < i,
            Use::Definition => (value as usize) < self.definitions(),
        }
    }

    fn fields_ok(&self, i: u32, op: Op) -> bool
        ensures { Decides result (FieldsOk self.now.bytes.now i op) }
    {
        let shape = op.shape();
        self.field_ok(i, shape.argument, self.argument_at(i) as u16)
            && self.field_ok(i, shape.left, self.left_at(i))
            && self.field_ok(i, shape.right, self.right_at(i))
            && self.spare_at(i) == 0
    }

    fn row_ok(&self, i: u32) -> bool
        ensures { Decides result (RowOk self.now.bytes.now i) }
    {
        // By arms: `is_some_and` was tried, and the proof did not close.
        match self.op_at(i) {
            None => false,
            Some(op) => self.fields_ok(i, op),
        }
    }

    // Whether row i is none of those before it.
    fn row_new(&self, i: u32) -> bool
        ensures { Decides result (RowNew self.now.bytes.now i) }
    {
        let bytes = self.row_bytes(i);
        (0..i).all(|k| self.row_bytes(k) != bytes)
    }

    fn body_ok(&self, d: u32) -> bool
        ensures { Decides result (DefinitionOk self.now.bytes.now d) }
    {
        (self.definition_at(d) as usize) < self.rows()
    }
}

fn check_length(file: File) -> Result<(), Fault>
    ensures { Passes (length_rule file.entry.bytes.now) result }
{
    first(|_| file.length_ok(), 1, Refusal::FileLength)
}

fn check_head(file: File) -> Result<(), Fault>
    ensures { Passes (head_rule file.entry.bytes.now) result }
{
    first(|_| file.head_ok(), 1, Refusal::FileHead)
}

fn check_pairs(file: File) -> Result<(), Fault>
    ensures { Passes (pair_rule file.entry.bytes.now) result }
{
    first(|k| file.pair_ok(SECTIONS[k]), 3, Refusal::FilePair)
}

fn check_masks(file: File) -> Result<(), Fault>
    ensures { Passes (mask_rule file.entry.bytes.now) result }
{
    first(|k| file.mask_ok(k as u32), file.masks(), Refusal::FileMask)
}

fn check_rows(file: File) -> Result<(), Fault>
    ensures { Passes (row_rule file.entry.bytes.now) result }
{
    first(|i| file.row_ok(i as u32), file.rows(), Refusal::FileRow)
}

fn check_repeats(file: File) -> Result<(), Fault>
    ensures { Passes (repeat_rule file.entry.bytes.now) result }
{
    first(|i| file.row_new(i as u32), file.rows(), Refusal::FileRepeat)
}

fn check_definitions(file: File) -> Result<(), Fault>
    ensures { Passes (definition_rule file.entry.bytes.now) result }
{
    first(
        |d| file.body_ok(d as u32),
        file.definitions(),
        Refusal::FileDefinition,
    )
}

fn judge(file: File) -> Result<(), Fault>
    ensures { Judged (rules_in_order file.entry.bytes.now) result }
{
    check_length(file)?;
    check_head(file)?;
    check_pairs(file)?;
    check_masks(file)?;
    check_rows(file)?;
    check_repeats(file)?;
    check_heights(file)?;
    check_definitions(file)?;
    Ok(())
}

// Whether the bytes are a well-formed model file, or the first refusal, at its first place.
pub fn check(bytes: &[u8]) -> Result<(), Fault>
    ensures { Exact (file_rules bytes.now) result }
{
    judge(File { bytes })
}
