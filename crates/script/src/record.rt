// What a line asks, and what came of it; each prints itself.
ghost use Rattle.std.specs.Prelude.{Some};
ghost use Rattle.script.specs.Texts.{rows_text, verdict_text, outcome_text};

use fault::{Code, Fault};
use std::fmt;

// The rows of a design and of a specification.
#[derive(Clone, Copy, PartialEq, Eq, Debug)]
pub struct Asked {
    pub design: u16,
    pub spec: u16,
}

#[derive(Clone, Copy, PartialEq, Eq, Debug)]
pub enum Verdict<'a> {
    // the rows found
    Holds(usize),
    // the steps of the run, tau counted, and the events of its trace
    Fails(usize, &'a [u8]),
    Refused(Fault),
}

// One line's outcome: the rows that were asked for, none where the line was bad, and the verdict.
#[derive(Clone, Copy, PartialEq, Eq, Debug)]
pub struct Record<'a> {
    pub asked: Option<Asked>,
    pub verdict: Verdict<'a>,
}

impl fmt::Display for Asked {
    ghost output = { λ a. Some (rows_text a) };

    fn fmt<W: fmt::Write>(&self, f: &mut fmt::Formatter<W>) -> fmt::Result {
        let design = self.design;
        let spec = self.spec;
        write!(f, "{design} {spec}")
    }
}

impl fmt::Display for Verdict<'_> {
    ghost output = { λ v. Some (verdict_text v) };

    fn fmt<W: fmt::Write>(&self, f: &mut fmt::Formatter<W>) -> fmt::Result {
        match *self {
            Verdict::Holds(found) => write!(f, "HOLDS {found}"),
            Verdict::Fails(steps, events) => {
                write!(f, "FAILS {steps}")?;
                for e in events {
                    write!(f, " {e}")?;
                }
                Ok(())
            }
            Verdict::Refused(fault) => {
                let code = Code(fault);
                write!(f, "REFUSED {code}")
            }
        }
    }
}

impl fmt::Display for Record<'_> {
    ghost output = { λ r. Some (outcome_text r) };

    fn fmt<W: fmt::Write>(&self, f: &mut fmt::Formatter<W>) -> fmt::Result {
        let verdict = self.verdict;
        match self.asked {
            None => write!(f, "- - {verdict}"),
            Some(asked) => write!(f, "{asked} {verdict}"),
        }
    }
}
