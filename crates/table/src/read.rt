// Taking bytes up as a table, and the questions that a table answers.
ghost use Rattle.std.specs.Prelude.{◌≡◌, drop};
ghost use Rattle.std.specs.List.{slice_get};
ghost use Rattle.table.specs.Form.{states, start, steps_of};
ghost use Rattle.table.specs.Rules.{table_rules, normal_rules};
ghost use Rattle.table.specs.Steps.{Lawful, Lone, follow, Leads};
ghost use Rattle.table.specs.Taken.{Taken};

use crate::checking::check;
use crate::fields::{offset_of, size_of, start_of, states_of, step_at};
use crate::list::StepsOf;
use crate::normal::check_normal;
use crate::step::Step;
use crate::view::{NormalTable, Table};
use std::ops::Deref;

// One state without steps.
static BARE: [u8; 16] = [0, 1, 0, 0, 0, 0, 0, 0, 0, 0, 0, 0, 0, 0, 0, 0];

impl<'a> Table<'a> {
    // The table of the bytes; bytes that the check refuses are taken up as one state without steps.
    pub fn take_up(bytes: &'a [u8]) -> Table<'a>
        ensures { Taken (table_rules bytes.now) bytes.now result.bytes.now }
    {
        if check(bytes).is_ok() {
            return Table { bytes };
        }
        Table { bytes: &BARE }
    }

    // How many states the table has, 1 to 65,535.
    pub fn states(&self) -> u16
        ensures { result ≡ states self.now.bytes.now }
    {
        states_of(self.bytes)
    }

    pub fn start(&self) -> u16
        ensures { result ≡ start self.now.bytes.now }
    {
        start_of(self.bytes)
    }

    // Entry `k` of a state's list, or nothing past its end.
    pub fn step(&self, state: u16, k: usize) -> Option<Step>
        ensures entry { result ≡ slice_get (steps_of self.now.bytes.now state) k }
        ensures lawful { Lawful self.now.bytes.now }
    {
        if state >= states_of(self.bytes) {
            return None;
        }
        let size = size_of(self.bytes, state as u32) as usize;
        if k >= size {
            return None;
        }
        let from = offset_of(self.bytes, state as u32);
        Some(step_at(self.bytes, from + k as u32))
    }

    // The steps of a state, in their order.
    pub fn steps(&self, state: u16) -> StepsOf<'a>
        ensures { drop result.k (steps_of result.table.bytes.now result.state) ≡ steps_of self.now.bytes.now state }
    {
        StepsOf {
            table: *self,
            state,
            k: 0,
        }
    }
}

impl<'a> NormalTable<'a> {
    // The normal table of the bytes; bytes that the check of normal tables refuses are taken up as one
    // state without steps. (Written out, not shared, since what its check shows is more than a table's type says.)
    pub fn take_up(bytes: &'a [u8]) -> NormalTable<'a>
        ensures { Taken (normal_rules bytes.now) bytes.now result.table.bytes.now }
    {
        if check_normal(bytes).is_ok() {
            return NormalTable {
                table: Table { bytes },
            };
        }
        NormalTable {
            table: Table { bytes: &BARE },
        }
    }

    // How many states the table has, 1 to 65,535. This and the next two stand beside `Deref`, since a trait in scope
    // whose methods have the same names would be found before what `Deref` leads to.
    pub fn states(&self) -> u16
        ensures { result ≡ states self.now.table.bytes.now }
    {
        self.table.states()
    }

    pub fn start(&self) -> u16
        ensures { result ≡ start self.now.table.bytes.now }
    {
        self.table.start()
    }

    // Entry `k` of a state's list, or nothing past its end.
    pub fn step(&self, state: u16, k: usize) -> Option<Step>
        ensures entry { result ≡ slice_get (steps_of self.now.table.bytes.now state) k }
        ensures lawful { Lawful self.now.table.bytes.now }
    {
        self.table.step(state, k)
    }

    // The one state that the event leads to from a state, or nothing where its list has no such event.
    pub fn after(&self, state: u16, event: u8) -> Option<u16>
        ensures value { result ≡ follow (steps_of self.now.table.bytes.now state) event }
        ensures leads { Leads (steps_of self.now.table.bytes.now state) event result }
        ensures lawful { Lawful self.now.table.bytes.now }
        ensures lone { Lone self.now.table.bytes.now }
    {
        self.table
            .steps(state)
            .find(|step| step.event == event)
            .map(|step| step.target)
    }
}

// A normal table answers what its table does.
impl<'a> Deref for NormalTable<'a> {
    type Target = Table<'a>;

    ghost deref_gives = { λ n t. t ≡ n.table };

    fn deref(&self) -> &Table<'a> {
        &self.table
    }
}
