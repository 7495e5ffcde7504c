// Rows as text, in the usual notation of CSP.
ghost use Rattle.std.specs.Prelude.{Some};
ghost use Rattle.model.specs.Words.{row_text_lem};

use crate::op::{Op, Row};
use std::fmt;

// The process of a row, its parts by row number.
impl fmt::Display for Row {
    ghost output = { λ r. Some (row_text_lem r) };

    fn fmt<W: fmt::Write>(&self, f: &mut fmt::Formatter<W>) -> fmt::Result {
        let left = self.left;
        let right = self.right;
        match self.op {
            Op::Stop => write!(f, "STOP"),
            Op::Skip => write!(f, "SKIP"),
            Op::Omega => write!(f, "OMEGA"),
            Op::Prefix(event) => write!(f, "{event} -> R{left}"),
            Op::External => write!(f, "R{left} [] R{right}"),
            Op::Internal => write!(f, "R{left} |~| R{right}"),
            Op::Sequence => write!(f, "R{left} ; R{right}"),
            Op::Parallel(mask) => write!(f, "R{left} [|M{mask}|] R{right}"),
            Op::Hide(mask) => write!(f, "R{left} \\ M{mask}"),
            Op::Interrupt => write!(f, "R{left} /\\ R{right}"),
            Op::Name(definition) => write!(f, "N{definition}"),
        }
    }
}
