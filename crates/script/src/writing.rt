// Writing lines.
ghost use Rattle.std.specs.Prelude.{◌≡◌, IfOk, string_bytes};
ghost use Rattle.script.specs.Texts.{record_text, model_line_lem};

use crate::record::Record;
use fault::{Code, Fault};
use std::alloc::{AllocError, Global};

// The line of a record.
pub fn record_line(heap: Global, outcome: Record) -> Result<String, AllocError>
    ensures { IfOk result (λ s. string_bytes s ≡ record_text outcome.entry) }
{
    format!(in heap; "{outcome}\n")
}

// The line of a model that is refused.
pub fn model_line(heap: Global, fault: Fault) -> Result<String, AllocError>
    ensures { IfOk result (λ s. string_bytes s ≡ model_line_lem fault) }
{
    let code = Code(fault);
    format!(in heap; "MODEL {code}\n")
}
