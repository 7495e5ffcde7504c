// What a process can do: the step rules, and the ordered list of the steps that they give.
#![tactic(auto)]

ghost use Rattle.std.specs.Prelude.{◌≡◌};
ghost use Rattle.model.specs.Models.{settled_file};
ghost use Rattle.step_rules.specs.Cases.{CasesHold};
ghost use Rattle.step_rules.specs.Lists.{reads};
ghost use Rattle.step_rules.specs.Promises.{ListsTheSteps, OneList};

use model::{Op, Settled};

// Whose steps an operator reads for its own: those of its parts, or those of a definition's body.
#[derive(Clone, Copy, PartialEq, Eq, Debug)]
pub enum Reads {
    Nothing,
    Left,
    Both,
    Body(u16),
}

pub fn reads_of(op: Op) -> Reads
    ensures { result ≡ reads op }
{
    match op {
        Op::Stop | Op::Skip | Op::Omega | Op::Prefix(_) | Op::Internal => Reads::Nothing,
        Op::Sequence | Op::Hide(_) => Reads::Left,
        Op::External | Op::Parallel(_) | Op::Interrupt => Reads::Both,
        Op::Name(d) => Reads::Body(d),
    }
}

// The theorem that the list of a term has exactly the steps that the rules derive.
pub fn lists_the_steps()
    ensures { ListsTheSteps }
{}

// The theorem that in a settled model every term has exactly one list.
pub fn one_list(model: &Settled)
    ensures { OneList (settled_file model.now) }
{}

// The worked cases about steps, as one theorem over their list.
pub fn cases_hold()
    ensures { CasesHold }
{}
