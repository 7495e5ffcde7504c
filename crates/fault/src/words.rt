// What a fault says to a person: what is wrong, and where.
ghost use Rattle.std.specs.Prelude.{◌≡◌, Some, None, MatchOption};
ghost use Rattle.fault.specs.Words.{words, noun, told, code_text};

use crate::refusal::{Fault, Refusal};
use std::fmt;

impl Refusal {
    // What is wrong.
    pub fn words(self) -> &'static str
        ensures { result.now ≡ words self }
    {
        match self {
            Refusal::FileLength => "the file is shorter than 28 bytes or longer than 65536",
            Refusal::FileHead =>
                "the file does not begin with version 1, an event count of at most 62 and section count 3",
            Refusal::FilePair =>
                "a section is out of order, passes the file, has a broken length or a wrong number of entries",
            Refusal::FileMask => "a mask holds an event that is not visible in this model",
            Refusal::FileRow => "a row has an unknown kind or a wrong field",
            Refusal::FileRepeat => "a row repeats an earlier row",
            Refusal::FileHeight => "a row is higher than 64",
            Refusal::FileDefinition => "a definition's body is no row of the file",
            Refusal::ModelOpen => "a definition's body opens a definition that is not below it",
            Refusal::ProcessRow => "the model has no such row",
            Refusal::ProcessRoom => "compiling this process passes a limit or the room lent for it",
            Refusal::TableLength => "the table's length is not the one its head tells",
            Refusal::TablePair =>
                "a state's list is out of order, too long or passes the steps, or there is no such start",
            Refusal::TableStep =>
                "a step has a wrong event, a nonzero spare byte, no such target, or ends in a state with steps",
            Refusal::TableNormal => "a state has a hidden step or offers one event twice",
            Refusal::NormaliseStates => "the table to normalise has more than 256 states",
            Refusal::NormaliseRoom => "normalising passes a limit or the room lent for it",
            Refusal::SystemEvents => "an event is not visible, or two events are the same",
            Refusal::SearchRows => "a search needs 1 to 65535 work rows",
            Refusal::SearchBudget => "the budget is zero",
            Refusal::SearchLent => "the rows lent are not those the search was begun with",
            Refusal::SearchFull => "a new pair was found and no work row was free",
            Refusal::TraceBuffer => "the buffer is too short for the trace",
            Refusal::AuditStart => "the pair of both starts is not listed",
            Refusal::AuditEvent => "the specification does not allow an event of the design",
            Refusal::AuditPair => "a pair that is reached is not listed",
            Refusal::ScriptLine => "the line is not two row numbers with one space between them",
        }
    }

    // What a place of this refusal counts; nothing where it has no place.
    pub fn noun(self) -> Option<&'static str>
        ensures { MatchOption result (noun self ≡ None) (λ s. noun self ≡ Some s.now) }
    {
        match self {
            Refusal::FileLength
            | Refusal::FileHead
            | Refusal::ProcessRoom
            | Refusal::TableLength
            | Refusal::NormaliseStates
            | Refusal::NormaliseRoom
            | Refusal::SystemEvents
            | Refusal::SearchRows
            | Refusal::SearchBudget
            | Refusal::SearchLent
            | Refusal::SearchFull
            | Refusal::TraceBuffer
            | Refusal::AuditStart => None,
            Refusal::FilePair => Some("section"),
            Refusal::FileMask => Some("mask"),
            Refusal::FileRow
            | Refusal::FileRepeat
            | Refusal::FileHeight
            | Refusal::ProcessRow
            | Refusal::AuditEvent
            | Refusal::AuditPair => Some("row"),
            Refusal::FileDefinition | Refusal::ModelOpen => Some("definition"),
            Refusal::TablePair | Refusal::TableNormal => Some("state"),
            Refusal::TableStep => Some("step"),
            Refusal::ScriptLine => Some("line"),
        }
    }
}

impl fmt::Display for Refusal {
    ghost output = { λ r. Some (words r) };

    fn fmt<W: fmt::Write>(&self, f: &mut fmt::Formatter<W>) -> fmt::Result {
        f.write_str(self.words())
    }
}

impl fmt::Display for Fault {
    ghost output = { λ f. Some (told f) };

    fn fmt<W: fmt::Write>(&self, f: &mut fmt::Formatter<W>) -> fmt::Result {
        let words = self.refusal.words();
        let place = self.place;
        match self.refusal.noun() {
            None => write!(f, "{words}"),
            Some(noun) => write!(f, "{words} ({noun} {place})"),
        }
    }
}

// A fault as programs read it: its number and its place.
#[derive(Clone, Copy, PartialEq, Eq, Debug)]
pub struct Code(pub Fault);

impl fmt::Display for Code {
    ghost output = { λ c. Some (code_text c.0) };

    fn fmt<W: fmt::Write>(&self, f: &mut fmt::Formatter<W>) -> fmt::Result {
        let number = self.0.refusal.number();
        let place = self.0.place;
        write!(f, "{number} {place}")
    }
}
