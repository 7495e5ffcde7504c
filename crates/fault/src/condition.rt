// The first place at which a condition fails.
ghost use Rattle.std.specs.Prelude.{◌≡◌, ℕ, ◌<◌, Bool, true};
ghost use Rattle.fault.specs.Judged.{Passes, rule, Tried};

use crate::refusal::{Fault, Refusal};

// The first of the places below `places` at which the condition fails, as a fault.
pub fn first<F: Fn(usize) -> bool>(holds: F, places: usize, refusal: Refusal) -> Result<(), Fault>
    requires { (k : ℕ) → k < places → F.pre holds k }
    ensures tried { Tried (F.post holds) refusal places result }
    ensures passes { (p : ℕ → Bool) → ((k : ℕ) (b : Bool) → k < places → F.post holds k b → b ≡ p k) → Passes (rule refusal places (λ k. p k ≡ true)) result }
{
    for place in 0..places {
        if !holds(place) {
            return Err(Fault { refusal, place });
        }
    }
    Ok(())
}
