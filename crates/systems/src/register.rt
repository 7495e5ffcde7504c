// The count register: it counts up to a limit and down again, and tells when it is at 0.
ghost use Rattle.std.specs.Prelude.{◌≡◌, Decides, MatchResult};
ghost use Rattle.fault.specs.Judged.{fault};
ghost use Rattle.fault.specs.declared.refusal.Refusal.TheVariants.{SystemEvents};
ghost use Rattle.systems.specs.Registers.{Apart, Visible, register};
ghost use Rattle.systems.specs.Keeping.{register_keeps, register_keeps_lone};

use crate::system::{Normal, System};
use fault::{Fault, Refusal};

const START: u16 = 0;

#[derive(Clone, Copy)]
pub struct Register {
    limit: u16,
    up: u8,
    down: u8,
    iszero: u8,
    ghost apart: { Apart up down iszero },
}

fn visible(event: u8) -> bool
    ensures { Decides result (Visible event) }
{
    event >= 2 && event < 64
}

impl Register {
    // The register, or the refusal of events that are not visible or not distinct.
    pub fn new(limit: u16, up: u8, down: u8, iszero: u8) -> Result<Register, Fault>
        ensures { MatchResult result (λ m. Apart up down iszero × (register m.limit m.up m.down m.iszero ≡ register limit up down iszero)) (λ f. (f ≡ fault SystemEvents 0) × (Apart up down iszero → ⊥)) }
    {
        if !visible(up) || !visible(down) || !visible(iszero) {
            return Err(Refusal::SystemEvents.into());
        }
        if up == down || up == iszero || down == iszero {
            return Err(Refusal::SystemEvents.into());
        }
        Ok(Register {
            limit,
            up,
            down,
            iszero,
        })
    }
}

impl System for Register {
    type State = u16;

    ghost means = { λ m. register m.limit m.up m.down m.iszero };

    ghost kind = { λ x y e. e };

    ghost lawful = { λ m. register_keeps m.limit m.up m.down m.iszero m.apart };

    fn start(&self) -> u16 {
        START
    }

    fn step(&self, at: u16, k: usize) -> Option<(u8, u16)> {
        if at > self.limit {
            return None;
        }
        let fall = if at == 0 {
            (self.iszero, 0)
        } else {
            (self.down, at - 1)
        };
        if at == self.limit {
            return (k == 0).then_some(fall);
        }
        match k {
            0 => Some((self.up, at + 1)),
            1 => Some(fall),
            _ => None,
        }
    }
}

impl Normal for Register {
    ghost lone = { λ m. register_keeps_lone m.limit m.up m.down m.iszero m.apart };

    fn after(&self, at: u16, event: u8) -> Option<u16> {
        if at > self.limit {
            return None;
        }
        if event == self.up {
            return (at < self.limit).then(|| at + 1);
        }
        if at == 0 {
            return (event == self.iszero).then_some(0);
        }
        (event == self.down).then_some(at - 1)
    }
}
