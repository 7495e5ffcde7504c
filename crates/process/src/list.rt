// The steps of one row of a model.
ghost use Rattle.std.specs.Prelude.{ℕ, ◌<◌, ◌≤◌, min, length, vec_len, MatchResult};
ghost use Rattle.model.specs.File.{rows as rows_in, process};
ghost use Rattle.model.specs.Models.{settled_file};
ghost use Rattle.process.specs.Listed.{ListedAt, StepsListed};
ghost use Rattle.process.specs.Loaded.{Loading, WantsIn};

use crate::slots::NoRoom;
use crate::term_rows::TermRows;
use crate::work::Workspace;
use fault::{Fault, Refusal};
use model::{Row, Settled};

impl TermRows<'_> {
    ghost use Rattle.process.specs.Lent.{Lent};

    // How many steps row r of the model has; they stand in its slot then.
    fn list(&mut self, r: u16) -> Result<usize, NoRoom>
        requires none { Loading (settled_file self.old.model.now) 0 self.old.rows.now self.old.work.now }
        requires row { r < rows_in (settled_file self.old.model.now) }
        ensures lent { Lent self.old self.new }
        ensures listed { MatchResult result (ListedAt (settled_file self.old.model.now) self.new.rows.now self.new.work.now r) (λ _. (room : ℕ) → WantsIn (settled_file self.old.model.now) (process (settled_file self.old.model.now) r) (length self.old.rows.now) room) }
    {
        self.begin()?;
        self.steps(r)?;
        Ok(self.work.known(r).unwrap())
    }
}

// The same over lent rows, as many as there are slots at most. Rows and workspace apart, as the public call has them lent:
// its caller reads both afterwards.
fn listed(rows: &mut [Row], work: &mut Workspace, model: &Settled, r: u16) -> Result<usize, NoRoom>
    requires size { length rows.old ≤ vec_len work.old.lens }
    requires row { r < rows_in (settled_file model.now) }
    ensures { MatchResult result (ListedAt (settled_file model.now) rows.new work.new r) (λ _. (room : ℕ) → WantsIn (settled_file model.now) (process (settled_file model.now) r) (length rows.old) room) }
{
    let mut terms = TermRows::over(rows, work, model);
    terms.list(r)
}

// The steps of a row of the model, in its slot, over term rows that begin with the model's: how many there are. As
// many term rows are used as there are rows and slots.
pub fn list_steps(
    model: &Settled,
    row: usize,
    rows: &mut [Row],
    work: &mut Workspace,
) -> Result<usize, Fault>
    ensures { StepsListed (settled_file model.now) row (min (length rows.old) (vec_len work.old.lens)) rows.new work.new result }
{
    if row >= model.file().rows() {
        return Err(Fault {
            refusal: Refusal::ProcessRow,
            place: row,
        });
    }
    let cap = rows.len().min(work.lens.len());
    let n = listed(&mut rows[..cap], work, model, row as u16)?;
    Ok(n)
}
