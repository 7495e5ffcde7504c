// A model file as text that a person can read.
#![tactic(auto)]

pub mod lines;
#[cfg(test)]
mod tests;

ghost use Rattle.std.specs.Prelude.{◌≡◌, ◌<◌, is_ok, IfOk, string_bytes};
ghost use Rattle.model.specs.File.{masks, rows, definitions};
ghost use Rattle.model.specs.Models.{drafted_file};
ghost use Rattle.model.specs.Words.{row_text_lem};
ghost use Rattle.model_text.specs.Text.{alphabet_text_lem, definition_line_lem, mask_line_lem, member_text_lem, model_text_lem, refusal_text_lem, refused_text_lem, row_line_lem, set_text_lem, Shows};

use crate::lines::push_lines;
use fault::{Code, Fault};
use lent_bytes::bit_at;
use model::{Drafted, File, Row, check};
use std::alloc::{AllocError, Global};

// The process of a row, its parts by row number.
pub fn row_text(heap: Global, row: Row) -> Result<String, AllocError>
    ensures { IfOk result (λ s. string_bytes s ≡ row_text_lem row) }
{
    format!(in heap; "{row}")
}

// One member of a set after the mark, and after a comma unless it is the lowest; nothing where it is no member.
fn member_text(heap: Global, mark: &str, set: u64, e: usize) -> Result<String, AllocError>
    requires { e < 64 }
    ensures { IfOk result (λ s. string_bytes s ≡ member_text_lem mark.now set e) }
{
    if !bit_at(set, e) {
        return format!(in heap; "");
    }
    if set % (1 << e) == 0 {
        format!(in heap; "{mark}{e}")
    } else {
        format!(in heap; ", {mark}{e}")
    }
}

// The bits of a number as a set, each member after the mark.
pub fn set_text(heap: Global, mark: &str, set: u64) -> Result<String, AllocError>
    ensures { IfOk result (λ s. string_bytes s ≡ set_text_lem mark.now set) }
{
    let mut out = format!(in heap; "{{")?;
    push_lines(&mut out, |e| member_text(heap, mark, set, e), 64)?;
    out.push_str("}")?;
    Ok(out)
}

fn mask_line(heap: Global, file: File, k: usize) -> Result<String, AllocError>
    requires { k < masks file.bytes.now }
    ensures { IfOk result (λ s. string_bytes s ≡ mask_line_lem file.entry.bytes.now k) }
{
    let set = set_text(heap, "", file.mask(k).unwrap())?;
    format!(in heap; "M{k} = {set}\n")
}

fn row_line(heap: Global, file: File, i: usize) -> Result<String, AllocError>
    requires { i < rows file.bytes.now }
    ensures { IfOk result (λ s. string_bytes s ≡ row_line_lem file.entry.bytes.now i) }
{
    let row = file.row(i).unwrap();
    format!(in heap; "R{i} = {row}\n")
}

fn definition_line(heap: Global, draft: &Drafted, d: usize) -> Result<String, AllocError>
    requires { d < definitions (drafted_file draft.now) }
    ensures { IfOk result (λ s. string_bytes s ≡ definition_line_lem (drafted_file draft.now) d) }
{
    let body = draft.file().definition(d).unwrap();
    let set = set_text(heap, "N", draft.open_in(body as usize))?;
    format!(in heap; "N{d} = R{body} opens {set}\n")
}

// The visible events.
fn alphabet_text(heap: Global, events: u8) -> Result<String, AllocError>
    ensures { IfOk result (λ s. string_bytes s ≡ alphabet_text_lem events) }
{
    if events == 0 {
        return format!(in heap; "alphabet {{}}\n");
    }
    let last = events as u16 + 1;
    format!(in heap; "alphabet {{2..{last}}}\n")
}

// The whole model.
fn model_text(heap: Global, draft: &Drafted) -> Result<String, AllocError>
    ensures { IfOk result (λ s. string_bytes s ≡ model_text_lem (drafted_file draft.now)) }
{
    let file = draft.file();
    let mut out = alphabet_text(heap, file.events())?;
    push_lines(&mut out, |k| mask_line(heap, file, k), file.masks())?;
    push_lines(&mut out, |i| row_line(heap, file, i), file.rows())?;
    push_lines(
        &mut out,
        |d| definition_line(heap, draft, d),
        file.definitions(),
    )?;
    Ok(out)
}

// What is refused: after the word its number and place, then a line in words.
pub fn refusal_text(heap: Global, word: &str, fault: Fault) -> Result<String, AllocError>
    ensures { IfOk result (λ s. string_bytes s ≡ refusal_text_lem word.now fault) }
{
    let code = Code(fault);
    format!(in heap; "{word} {code}\n{fault}\n")
}

// A refused model.
pub fn refused_text(heap: Global, fault: Fault) -> Result<String, AllocError>
    ensures { IfOk result (λ s. string_bytes s ≡ refused_text_lem fault) }
{
    refusal_text(heap, "MODEL", fault)
}

// The bytes of a model file as text: the model, or why it is refused.
pub fn show(heap: Global, bytes: &[u8]) -> Result<String, AllocError>
    ensures { IfOk result (λ s. Shows bytes.now (string_bytes s)) }
{
    if let Err(fault) = check(bytes) {
        return refused_text(heap, fault);
    }
    let draft = Drafted::take_up(bytes);
    if let Err(fault) = draft.check_settled() {
        return refused_text(heap, fault);
    }
    model_text(heap, &draft)
}
