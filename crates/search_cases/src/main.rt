// The search at work on registers: whole searches, budgets of 1, refused calls in between, and want of rows.
#![tactic(auto)]

use audit::audit;
use search::{Advanced, Blank, Work, advance, begin, decide};
use std::io;
use systems::{Fault, Register, Table};

type Row = Work<u16, u16>;

// A register of a sample; one that is refused ends the program with an error.
fn sample(limit: u16, up: u8, down: u8, iszero: u8) -> io::Result<Register> {
    Register::new(limit, up, down, iszero).map_err(|_| io::Error::from(io::ErrorKind::InvalidInput))
}

// A refusal by the fields of its fault; each program words its own line.
fn told(rt: &HostRuntime, what: &str, fault: Fault) -> io::Result<()> {
    let number = fault.refusal.number();
    let place = fault.place;
    println!(rt; "{what}: refused {number} at {place}")
}

fn show(rt: &HostRuntime, what: &str, answer: Advanced) -> io::Result<()> {
    match answer {
        Advanced::Runs(_running, units, found) => {
            println!(rt; "{what}: running, {units} units, {found} rows")
        }
        Advanced::Holds(_held, units, found) => {
            println!(rt; "{what}: holds, {units} units, {found} rows")
        }
        Advanced::Fails(_failed, units, found, steps) => {
            println!(rt; "{what}: fails, {units} units, {found} rows, {steps} steps")
        }
        Advanced::Refused(fault, _running) => told(rt, what, fault),
        Advanced::Full(fault, found) => {
            told(rt, what, fault)?;
            println!(rt; "{found} rows stand")
        }
    }
}

// A search that still runs, or whose last call was refused, advanced once more. (Here and below the rows, the design
// and the specification are lent apart, as the calls of `search` take them.)
fn onward(
    at: Advanced,
    rows: &mut [Row],
    budget: usize,
    design: &Register,
    spec: &Register,
) -> Advanced {
    match at {
        Advanced::Runs(running, _, _) => advance(running, rows, budget, design, spec),
        Advanced::Refused(_, running) => advance(running, rows, budget, design, spec),
        other => other,
    }
}

// A whole search over the first `room` of the rows lent.
fn whole(
    rt: &HostRuntime,
    what: &str,
    lent: &mut [Row],
    room: usize,
    design: &Register,
    spec: &Register,
) -> io::Result<()> {
    let n = room.min(lent.len());
    match decide(&mut lent[0..n], design, spec) {
        Ok(answer) => show(rt, what, answer),
        Err(fault) => told(rt, what, fault),
    }
}

// Budgets of 1, up to the end of the search.
fn by_ones(
    rt: &HostRuntime,
    rows: &mut [Row],
    design: &Register,
    spec: &Register,
) -> io::Result<()> {
    match begin(rows, design, spec) {
        Ok(running) => {
            let mut at = advance(running, rows, 1, design, spec);
            for _ in 0..9 {
                at = onward(at, rows, 1, design, spec);
            }
            show(rt, "by budgets of 1", at)
        }
        Err(fault) => told(rt, "by budgets of 1", fault),
    }
}

// Refused calls, the second lent other rows, leave the search as it was.
fn in_between(
    rt: &HostRuntime,
    rows: &mut [Row],
    other: &mut [Row],
    design: &Register,
    spec: &Register,
) -> io::Result<()> {
    match begin(rows, design, spec) {
        Ok(running) => {
            let first = advance(running, rows, 3, design, spec);
            let zero = onward(first, rows, 0, design, spec);
            let lent = onward(zero, other, 1, design, spec);
            let last = onward(lent, rows, 1, design, spec);
            show(rt, "refused calls in between", last)
        }
        Err(fault) => told(rt, "refused calls in between", fault),
    }
}

// How many rows of a search that holds are its list of pairs; none of another.
fn held(answer: Advanced) -> usize {
    match answer {
        Advanced::Holds(_held, _, found) => found,
        _ => 0,
    }
}

// The rows of a search that holds, as they are handed to the audit.
fn audited(
    rt: &HostRuntime,
    rows: &mut [Row],
    design: &Register,
    spec: &Register,
) -> io::Result<()> {
    match decide(rows, design, spec) {
        Ok(answer) => {
            let found = held(answer).min(rows.len());
            match audit(design, spec, &rows[0..found]) {
                Ok(()) => println!(rt; "the audit accepts its {found} rows"),
                Err(fault) => told(rt, "the audit", fault),
            }
        }
        Err(fault) => told(rt, "the audit", fault),
    }
}

// Want of rows before and after a refused event in one unit, at the start pair.
fn narrow(rt: &HostRuntime, rows: &mut [Row], spec: &Register) -> io::Result<()> {
    let late = sample(3, 2, 3, 5)?;
    let early = sample(3, 9, 3, 2)?;
    whole(rt, "no row, then a refused event", rows, 1, &late, spec)?;
    whole(rt, "the same with a row more", rows, 2, &late, spec)?;
    whole(rt, "a refused event, then no row", rows, 1, &early, spec)
}

// A table that goes by tau and then by event 2 for ever: a run's steps count tau.
const QUIET: [u8; 44] = [
    0, 3, 0, 0, 0, 0, 0, 3, 0, 0, 0, 0, 0, 0, 0, 1, 0, 0, 0, 1, 0, 0, 0, 1, 0, 0, 0, 2, 0, 0, 0, 1,
    0, 0, 0, 1, 2, 0, 0, 2, 2, 0, 0, 2,
];

fn quiet(rt: &HostRuntime, rows: &mut [Row]) -> io::Result<()> {
    let design = Table::take_up(&QUIET);
    let spec = sample(1, 2, 3, 4)?;
    match decide(rows, &design, &spec) {
        Ok(answer) => show(rt, "tau counted", answer),
        Err(fault) => told(rt, "tau counted", fault),
    }
}

// Limits in the thousands.
fn high(rt: &HostRuntime, rows: &mut [Row]) -> io::Result<()> {
    let lower = sample(3000, 2, 3, 4)?;
    let upper = sample(3001, 2, 3, 4)?;
    whole(rt, "limit 3000 against 3001", rows, 4096, &lower, &upper)?;
    whole(rt, "limit 3001 against 3000", rows, 4096, &upper, &lower)?;
    whole(rt, "limit 3000 in 3000 rows", rows, 3000, &lower, &upper)
}

fn main(rt: HostRuntime) -> io::Result<()> {
    let mut rows = [Row::blank(); 4096];
    let mut other = [Row::blank(); 7];
    let three = sample(3, 2, 3, 4)?;
    let four = sample(4, 2, 3, 4)?;
    whole(&rt, "limit 3 against 4", &mut rows, 4096, &three, &four)?;
    audited(&rt, &mut rows, &three, &four)?;
    whole(&rt, "limit 4 against 3", &mut rows, 4096, &four, &three)?;
    whole(&rt, "no rows", &mut rows, 0, &three, &four)?;
    whole(&rt, "just enough rows", &mut rows, 4, &three, &four)?;
    whole(&rt, "a row too few", &mut rows, 3, &three, &four)?;
    narrow(&rt, &mut rows, &four)?;
    by_ones(&rt, &mut rows, &three, &four)?;
    by_ones(&rt, &mut rows, &four, &three)?;
    in_between(&rt, &mut rows, &mut other, &three, &four)?;
    quiet(&rt, &mut rows)?;
    high(&rt, &mut rows)
}
