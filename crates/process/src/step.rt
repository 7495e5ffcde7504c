ghost use Rattle.process.specs.Rows.{same_step};
ghost use Rattle.process.specs.Sameness.{same_steps};

use first_seen::Same;

// A step: an event, and the row of the term after it. Not the step of a table, which leads to a state; this crate
// knows no tables.
#[derive(Clone, Copy, PartialEq, Eq, Debug, Default)]
pub struct Step {
    pub event: u8,
    pub next: u16,
}

impl Same for Step {
    type Key = Step;

    ghost key = { λ s. s };

    ghost alike = { same_step };

    ghost exact = { λ x y. same_steps x y };

    fn same(&self, other: &Step) -> bool {
        self == other
    }
}
