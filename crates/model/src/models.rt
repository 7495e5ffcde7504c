// Taking up a file as a drafted model, and a drafted model as a settled one.
ghost use Rattle.std.specs.Prelude.{◌≡◌, ℕ, ◌<◌, ◌≤◌, false};
ghost use Rattle.fault.specs.Judged.{Exact};
ghost use Rattle.lent_bytes.specs.Bits.{bit};
ghost use Rattle.model.specs.File.{rows, process};
ghost use Rattle.model.specs.Models.{drafted_file, settled_file};
ghost use Rattle.model.specs.Opening.{OpenedAs};
ghost use Rattle.model.specs.Rules.{settle_rules};
ghost use Rattle.model.specs.Sound.{Facts, Lower, TakenUp, SettledUp};

use crate::checks::check;
use crate::drafted::{Drafted, Settled};
use crate::file::File;
use crate::opens::{check_opens, open_sets, set_at};
use fault::Fault;

// The file without masks, rows and definitions.
static EMPTY: [u8; 28] = [
    0, 1, 0, 3, 0, 0, 0, 28, 0, 0, 0, 0, 0, 0, 0, 28, 0, 0, 0, 0, 0, 0, 0, 28, 0, 0, 0, 0,
];

// The bytes if they are well formed, else the file without rows. Settling has one of its own, which says one fact more.
fn usable(bytes: &[u8]) -> &[u8]
    ensures taken { TakenUp bytes.now result.now }
    ensures facts { Facts result.now }
{
    // By arms: `is_ok` was tried, and the proof of what the check said did not close.
    match check(bytes) {
        Ok(()) => bytes,
        Err(_) => &EMPTY,
    }
}

impl<'a> Drafted<'a> {
    // The bytes as a drafted model; a refused file as the one without rows.
    pub fn take_up(bytes: &'a [u8]) -> Drafted<'a>
        ensures { TakenUp bytes.now (drafted_file result) }
    {
        let bytes = usable(bytes);
        Drafted {
            file: File { bytes },
        }
    }

    // The file that the model reads.
    pub fn file(&self) -> File<'a>
        ensures { result.bytes.now ≡ drafted_file self.now }
    {
        self.file
    }

    // Whether the model is settled, or the lowest definition whose body has a wrong one open. The model
    // stays drafted either way.
    pub fn check_settled(&self) -> Result<(), Fault>
        ensures { Exact (settle_rules (drafted_file self.now)) result }
    {
        check_opens(self)
    }

    // The definitions that are open in row i, as bits; none past the rows.
    pub fn open_in(&self, i: usize) -> u64
        ensures row { i < rows (drafted_file self.now) → OpenedAs result (process (drafted_file self.now) i) }
        ensures past { rows (drafted_file self.now) ≤ i → result ≡ 0 }
    {
        if i >= self.file.rows() {
            return 0;
        }
        let mut sets = [0u64; 4096];
        open_sets(self, &mut sets);
        set_at(&sets, i)
    }

    // The model's bytes if it is settled, else the file without rows.
    fn usable_settled(&self) -> &'a [u8]
        ensures taken { SettledUp (drafted_file self.now) result.now }
        ensures facts { Facts result.now }
        ensures lower { Lower result.now }
    {
        match self.check_settled() {
            Ok(()) => self.file.bytes,
            Err(_) => &EMPTY,
        }
    }

    // The settled model; one that settling refuses as the one without rows.
    pub fn settle(self) -> Settled<'a>
        ensures { SettledUp (drafted_file self.entry) (settled_file result) }
    {
        let bytes = self.usable_settled();
        let Drafted { file: _ } = self;
        let draft = Drafted {
            file: File { bytes },
        };
        Settled { draft }
    }
}

impl<'a> Settled<'a> {
    // The file that the model reads.
    pub fn file(&self) -> File<'a>
        ensures { result.bytes.now ≡ settled_file self.now }
    {
        self.draft.file
    }
}
