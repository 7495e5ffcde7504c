// A system of a tool maker's own: off is 0, on is 1, and any other number has no steps.
ghost use Rattle.audit_cases.specs.Toggles.{toggle, toggle_keeps, toggle_keeps_lone};

use systems::{Normal, System};

#[derive(Clone, Copy)]
pub struct Toggle;

impl System for Toggle {
    type State = u16;

    ghost means = { λ _. toggle };

    ghost kind = { λ x y e. e };

    ghost lawful = { λ _. toggle_keeps };

    fn start(&self) -> u16 {
        0
    }

    fn step(&self, at: u16, k: usize) -> Option<(u8, u16)> {
        match (at, k) {
            (0, 0) => Some((2, 1)),
            (1, 0) => Some((3, 0)),
            _ => None,
        }
    }
}

impl Normal for Toggle {
    ghost lone = { λ _. toggle_keeps_lone };

    fn after(&self, at: u16, event: u8) -> Option<u16> {
        match (at, event) {
            (0, 2) => Some(1),
            (1, 3) => Some(0),
            _ => None,
        }
    }
}
