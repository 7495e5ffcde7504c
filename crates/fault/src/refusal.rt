// Each way in which a call of the engine refuses, by name. A refusal's layer and number, which programs read, are
// defined by `listed` of specs/Listing.antt, and told by the two functions below.
ghost use Rattle.std.specs.Prelude.{◌≡◌};
ghost use Rattle.fault.specs.Judged.{fault};
ghost use Rattle.fault.specs.Listing.{layer, number};

#[derive(Clone, Copy, PartialEq, Eq, Debug)]
pub enum Refusal {
    // model file
    FileLength,
    FileHead,
    FilePair,
    FileMask,
    FileRow,
    FileRepeat,
    FileHeight,
    FileDefinition,
    // model
    ModelOpen,
    // process
    ProcessRow,
    ProcessRoom,
    // table
    TableLength,
    TablePair,
    TableStep,
    TableNormal,
    NormaliseStates,
    NormaliseRoom,
    SystemEvents,
    // search
    SearchRows,
    SearchBudget,
    SearchLent,
    SearchFull,
    TraceBuffer,
    // audit
    AuditStart,
    AuditEvent,
    AuditPair,
    // script
    ScriptLine,
}

// What a call that refuses tells: which refusal, and the place (the number of the pair, mask, row,
// definition, step, state or line; 0 where the refusal has no place).
#[derive(Clone, Copy, PartialEq, Eq, Debug)]
pub struct Fault {
    pub refusal: Refusal,
    pub place: usize,
}

// A refusal that has no place.
impl From<Refusal> for Fault {
    ghost from_gives = { λ refusal f. f ≡ fault refusal 0 };

    fn from(refusal: Refusal) -> Fault {
        Fault { refusal, place: 0 }
    }
}

impl Refusal {
    // The number that programs read, 1 to 27. A method, and no cast or `From`, since a refusal has its layer's number too.
    pub fn number(self) -> u8
        ensures { result ≡ number self }
    {
        match self {
            Refusal::FileLength => 1,
            Refusal::FileHead => 2,
            Refusal::FilePair => 3,
            Refusal::FileMask => 4,
            Refusal::FileRow => 5,
            Refusal::FileRepeat => 6,
            Refusal::FileHeight => 7,
            Refusal::FileDefinition => 8,
            Refusal::ModelOpen => 9,
            Refusal::ProcessRow => 10,
            Refusal::ProcessRoom => 11,
            Refusal::TableLength => 12,
            Refusal::TablePair => 13,
            Refusal::TableStep => 14,
            Refusal::TableNormal => 15,
            Refusal::NormaliseStates => 16,
            Refusal::NormaliseRoom => 17,
            Refusal::SystemEvents => 18,
            Refusal::SearchRows => 19,
            Refusal::SearchBudget => 20,
            Refusal::SearchLent => 21,
            Refusal::SearchFull => 22,
            Refusal::TraceBuffer => 23,
            Refusal::AuditStart => 24,
            Refusal::AuditEvent => 25,
            Refusal::AuditPair => 26,
            Refusal::ScriptLine => 27,
        }
    }

    // The layer that refuses, a number since programs read it: file 1, model 2, process 3, table 4, search 5, audit 6, script 7.
    pub fn layer(self) -> u8
        ensures { result ≡ layer self }
    {
        match self {
            Refusal::FileLength
            | Refusal::FileHead
            | Refusal::FilePair
            | Refusal::FileMask
            | Refusal::FileRow
            | Refusal::FileRepeat
            | Refusal::FileHeight
            | Refusal::FileDefinition => 1,
            Refusal::ModelOpen => 2,
            Refusal::ProcessRow | Refusal::ProcessRoom => 3,
            Refusal::TableLength
            | Refusal::TablePair
            | Refusal::TableStep
            | Refusal::TableNormal
            | Refusal::NormaliseStates
            | Refusal::NormaliseRoom
            | Refusal::SystemEvents => 4,
            Refusal::SearchRows
            | Refusal::SearchBudget
            | Refusal::SearchLent
            | Refusal::SearchFull
            | Refusal::TraceBuffer => 5,
            Refusal::AuditStart | Refusal::AuditEvent | Refusal::AuditPair => 6,
            Refusal::ScriptLine => 7,
        }
    }
}
