// Reading a line: two row numbers with one space between them.
ghost use Rattle.std.specs.Prelude.{◌≡◌, ℕ, MatchOption, position, ◌==◌};
ghost use Rattle.script.specs.Lines.{Number, ReadLine};

use crate::record::Asked;
use fault::{Fault, Refusal};

// The row number that the bytes write, if they write one.
fn number(digits: &[u8]) -> Option<u16>
    ensures { MatchOption result ((v : ℕ) → Number digits.now v → ⊥) (λ v. Number digits.now v) }
{
    if digits.is_empty() || digits.len() > 5 {
        return None;
    }
    let mut n = 0u32;
    for b in digits {
        if *b < b'0' || *b > b'9' {
            return None;
        }
        n = n * 10 + (*b - b'0') as u32;
        if n > 65535 {
            return None;
        }
    }
    Some(n as u16)
}

// The place of the first space.
fn space(line: &[u8]) -> Option<usize>
    ensures { result ≡ position (λ b. b == 32) line.now }
{
    line.iter().position(|b| *b == b' ')
}

// The two row numbers of the line with the given number, counted from 1.
pub fn read_line(line: &[u8], place: usize) -> Result<Asked, Fault>
    ensures { ReadLine line.now place result }
{
    let bad = Fault {
        refusal: Refusal::ScriptLine,
        place,
    };
    // `let else`: `ok_or` was tried, and the proof which part was wrong did not close.
    let Some(at) = space(line) else {
        return Err(bad);
    };
    let Some(design) = number(&line[..at]) else {
        return Err(bad);
    };
    let Some(spec) = number(&line[at + 1..]) else {
        return Err(bad);
    };
    Ok(Asked { design, spec })
}
