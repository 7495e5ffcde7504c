// Texts by number, one after another.
ghost use Rattle.std.specs.Prelude.{ℕ, ◌<◌, string_bytes, OnOk};
ghost use Rattle.model_text.specs.Lines.{Appends};

use std::alloc::AllocError;

// Appends the texts of the numbers below n.
pub fn push_lines<F: Fn(usize) -> Result<String, AllocError>>(
    out: &mut String,
    line: F,
    n: usize,
) -> Result<(), AllocError>
    requires { (k : ℕ) → k < n → F.pre line k }
    ensures { OnOk result (Appends string_bytes (F.post line) n (string_bytes out.old) (string_bytes out.new)) }
{
    // By number: the closure is asked for each.
    for k in 0..n {
        let piece = line(k)?;
        out.push_str(&piece)?;
    }
    Ok(())
}
