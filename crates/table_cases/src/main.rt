// Transition tables on both sides of each limit: what the two checks answer, and what is read.
#![tactic(auto)]

use std::alloc::{AllocError, Global};
use std::io;
use table::{NormalTable, Step, Table, check, check_normal};

// A name, the start, each state's pair of offset and length, and the steps by event and target.
static SAMPLES: [(&str, u16, &[(u32, u32)], &[(u8, u16)]); 27] = [
    ("no states", 0, &[], &[]),
    ("start is the last", 1, &[(0, 0), (0, 0)], &[]),
    ("start past the last", 2, &[(0, 0), (0, 0)], &[]),
    ("wrong start, wrong pair", 2, &[(0, 0), (0, 1)], &[]),
    ("right start, wrong pair", 0, &[(0, 0), (0, 1)], &[]),
    ("a list to the end", 0, &[(0, 1), (1, 1)], &[(2, 1), (3, 0)]),
    (
        "a list past the end",
        0,
        &[(0, 1), (1, 2)],
        &[(2, 1), (3, 0)],
    ),
    (
        "lists that overlap",
        0,
        &[(0, 2), (1, 1)],
        &[(2, 1), (3, 0)],
    ),
    (
        "an empty list inside",
        0,
        &[(0, 2), (1, 0)],
        &[(2, 1), (3, 0)],
    ),
    (
        "lists out of order",
        0,
        &[(1, 1), (0, 1)],
        &[(2, 1), (3, 0)],
    ),
    ("event 63", 0, &[(0, 1)], &[(63, 0)]),
    ("event 64", 0, &[(0, 1)], &[(64, 0)]),
    ("target is the last", 0, &[(0, 1), (1, 0)], &[(2, 1)]),
    ("target past the last", 0, &[(0, 1), (1, 0)], &[(2, 2)]),
    ("tick to an end", 0, &[(0, 1), (1, 0)], &[(1, 1)]),
    ("tick to no end", 0, &[(0, 1), (1, 1)], &[(1, 1), (2, 0)]),
    ("a gap", 0, &[(0, 1), (2, 1)], &[(2, 1), (2, 1), (2, 0)]),
    (
        "64 in a gap",
        0,
        &[(0, 1), (2, 1)],
        &[(2, 1), (64, 1), (2, 0)],
    ),
    (
        "tick in a gap",
        0,
        &[(0, 1), (2, 1)],
        &[(2, 1), (1, 1), (2, 0)],
    ),
    ("wrong step, wrong pair", 0, &[(0, 2)], &[(64, 0)]),
    ("tau at state 0", 0, &[(0, 1)], &[(0, 0)]),
    ("tau at state 1", 0, &[(0, 1), (1, 1)], &[(2, 1), (0, 0)]),
    ("tau in a gap", 0, &[(1, 1)], &[(0, 0), (2, 0)]),
    ("twice at 0", 0, &[(0, 2)], &[(2, 0), (2, 0)]),
    (
        "twice at 1",
        0,
        &[(0, 1), (1, 3)],
        &[(2, 0), (2, 1), (63, 1), (2, 1)],
    ),
    ("once at each", 0, &[(0, 1), (1, 1)], &[(2, 1), (2, 0)]),
    ("again in a gap", 0, &[(0, 1)], &[(2, 0), (2, 0)]),
];

// The bytes of a table: for each state where its steps begin and how many they are, then all steps. (normalise_cases
// has the same: two programs, and sharing would need a crate of its own.)
fn bytes_of(
    heap: Global,
    start: u16,
    pairs: &[(u32, u32)],
    steps: &[(u8, u16)],
) -> Result<Vec<u8>, AllocError> {
    let mut bytes = Vec::new(heap);
    bytes.extend_from_slice(&u16::try_from(pairs.len()).unwrap_or(0).to_be_bytes())?;
    bytes.extend_from_slice(&start.to_be_bytes())?;
    bytes.extend_from_slice(&u32::try_from(steps.len()).unwrap_or(0).to_be_bytes())?;
    for (offset, size) in pairs {
        bytes.extend_from_slice(&offset.to_be_bytes())?;
        bytes.extend_from_slice(&size.to_be_bytes())?;
    }
    for (event, target) in steps {
        bytes.extend_from_slice(&[*event, 0])?;
        bytes.extend_from_slice(&target.to_be_bytes())?;
    }
    Ok(bytes)
}

// A refusal by the fields of its fault; each program words its own line.
fn answered(rt: &HostRuntime, answer: Result<(), fault::Fault>) -> io::Result<()> {
    match answer {
        Ok(()) => print!(rt; "yes"),
        Err(f) => {
            let number = f.refusal.number();
            let place = f.place;
            print!(rt; "{number} at {place}")
        }
    }
}

fn tell(rt: &HostRuntime, name: &str, bytes: &[u8]) -> io::Result<()> {
    print!(rt; "{name}: ")?;
    answered(rt, check(bytes))?;
    print!(rt; ", normal ")?;
    answered(rt, check_normal(bytes))?;
    println!(rt; "")
}

fn tell_samples(rt: &HostRuntime) -> io::Result<()> {
    for (name, start, pairs, steps) in &SAMPLES {
        let bytes = bytes_of(rt.alloc(), *start, pairs, steps)?;
        tell(rt, name, &bytes)?;
    }
    Ok(())
}

fn spare_byte(rt: &HostRuntime) -> io::Result<()> {
    let spare = [0, 1, 0, 0, 0, 0, 0, 1, 0, 0, 0, 0, 0, 0, 0, 1, 2, 1, 0, 0];
    tell(rt, "spare byte", &spare)
}

// A table of one state without steps, and zeros to the end, which its head tells as steps of a gap.
fn padded(rt: &HostRuntime, name: &str, len: usize, steps: u32) -> io::Result<()> {
    let mut bytes = bytes_of(rt.alloc(), 0, &[(0, 0)], &[])?;
    bytes.resize(len, 0)?;
    if bytes.len() >= 8 {
        bytes[4..8].copy_from_slice(&steps.to_be_bytes());
    }
    tell(rt, name, &bytes)
}

fn lengths(rt: &HostRuntime) -> io::Result<()> {
    tell(rt, "no bytes", &[])?;
    tell(rt, "seven bytes", &[0, 1, 0, 0, 0, 0, 0])?;
    padded(rt, "one state", 16, 0)?;
    padded(rt, "a byte too few", 15, 0)?;
    padded(rt, "a byte too many", 17, 0)?;
    padded(rt, "a step too few", 16, 1)?;
    padded(rt, "1048576 bytes", 1048576, 262140)?;
    padded(rt, "1048580 bytes", 1048580, 262141)
}

fn long_lists(rt: &HostRuntime) -> io::Result<()> {
    let long = [(2, 0); 257];
    let under = bytes_of(rt.alloc(), 0, &[(0, 256)], &long[0..256])?;
    tell(rt, "a list of 256", &under)?;
    let over = bytes_of(rt.alloc(), 0, &[(0, 257)], &long)?;
    tell(rt, "a list of 257", &over)
}

fn entry(rt: &HostRuntime, step: Option<Step>) -> io::Result<()> {
    match step {
        Some(s) => {
            let event = s.event;
            let target = s.target;
            println!(rt; "{event} to {target}")
        }
        None => println!(rt; "nothing"),
    }
}

fn led(rt: &HostRuntime, target: Option<u16>) -> io::Result<()> {
    match target {
        Some(state) => println!(rt; "leads to {state}"),
        None => println!(rt; "leads nowhere"),
    }
}

fn reads(rt: &HostRuntime) -> io::Result<()> {
    let steps = [(0, 0), (2, 1), (3, 0), (63, 0)];
    let bytes = bytes_of(rt.alloc(), 1, &[(1, 2), (3, 1)], &steps)?;
    let table = Table::take_up(&bytes);
    let states = table.states();
    let start = table.start();
    println!(rt; "{states} states, start {start}")?;
    for k in 0..3 {
        entry(rt, table.step(0, k))?;
    }
    entry(rt, table.step(1, 0))?;
    entry(rt, table.step(2, 0))?;
    let normal = NormalTable::take_up(&bytes);
    entry(rt, normal.step(0, 1))?;
    for (state, event) in [(0, 3), (1, 3), (1, 63), (2, 3)] {
        led(rt, normal.after(state, event))?;
    }
    Ok(())
}

fn refused(rt: &HostRuntime) -> io::Result<()> {
    let short = [0, 2, 0, 1];
    let table = Table::take_up(&short);
    let states = table.states();
    let start = table.start();
    println!(rt; "refused: {states} states, start {start}")?;
    entry(rt, table.step(0, 0))?;
    let bytes = bytes_of(rt.alloc(), 0, &[(0, 1)], &[(0, 0)])?;
    let silent = Table::take_up(&bytes);
    entry(rt, silent.step(0, 0))?;
    let normal = NormalTable::take_up(&bytes);
    entry(rt, normal.step(0, 0))
}

fn main(rt: HostRuntime) -> io::Result<()> {
    lengths(&rt)?;
    tell_samples(&rt)?;
    long_lists(&rt)?;
    spare_byte(&rt)?;
    reads(&rt)?;
    refused(&rt)
}
