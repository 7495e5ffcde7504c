// The steps of a row of a model as text.
#![tactic(auto)]

ghost use Rattle.std.specs.Prelude.{◌≡◌, ℕ, ◌+◌, ◌*◌, ◌<◌, ◌≤◌, min, ◌++◌, length, IfOk, vec_len, string_bytes, slice_index_or};
ghost use Rattle.model.specs.Models.{settled_file};
ghost use Rattle.process.specs.Slots.{blank_step};
ghost use Rattle.process_text.specs.Shown.{ShowsSteps, step_text};

use model::{Row, Settled};
use model_text::lines::push_lines;
use model_text::refusal_text;
use process::{Workspace, list_steps};
use std::alloc::{AllocError, Global};

// How many term rows are lent for listing a row's steps.
const TERM_ROWS: usize = 8192;

// Step k of a row: the event, the row that the step leads to, and that row's process.
fn step_line(
    heap: Global,
    rows: &[Row],
    work: &Workspace,
    row: usize,
    k: usize,
) -> Result<String, AllocError>
    requires slot { row < vec_len work.now.lens }
    requires step { k < 256 }
    ensures { IfOk result (λ s. string_bytes s ≡ step_text rows.now (slice_index_or work.now.pool.items (row * 256 + k) blank_step)) }
{
    let step = work.step(row, k).unwrap();
    let event = step.event;
    let next = step.next;
    let process = rows.get(next as usize).copied().unwrap_or_default();
    format!(in heap; "{event} -> R{next} = {process}\n")
}

// The lines of the steps of a row over lent term rows, or why it is refused.
fn steps_over(
    heap: Global,
    model: &Settled,
    row: usize,
    rows: &mut [Row],
    work: &mut Workspace,
) -> Result<String, AllocError>
    ensures { IfOk result (λ s. ShowsSteps (settled_file model.now) row (min (length rows.old) (vec_len work.old.lens)) (string_bytes s)) }
{
    match list_steps(model, row, rows, work) {
        Ok(n) => {
            let mut out = format!(in heap; "")?;
            let rows = &*rows;
            let work = &*work;
            push_lines(&mut out, |k| step_line(heap, rows, work, row, k), n)?;
            Ok(out)
        }
        Err(fault) => refusal_text(heap, "REFUSED", fault),
    }
}

// The steps of a row of a model, one line each, over as many term rows as the program lends; or why it is refused.
pub fn show_steps(heap: Global, model: &Settled, row: usize) -> Result<String, AllocError>
    ensures { IfOk result (λ s. ShowsSteps (settled_file model.now) row 8192 (string_bytes s)) }
{
    let mut rows = vec![in heap; Row::default(); TERM_ROWS]?;
    let mut work = Workspace::new(heap, TERM_ROWS)?;
    steps_over(heap, model, row, rows.as_mut_slice(), &mut work)
}
