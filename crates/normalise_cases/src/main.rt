// Tables normalised on both sides of each limit: what is answered, the nodes and their steps, and whether the
// lent rows are blank then.
#![tactic(auto)]

use normalise::normalise;
use sets::StateSet;
use std::alloc::{AllocError, Global};
use std::io;
use table::{NormalTable, Step};

const A: u8 = 2;

const B: u8 = 3;

fn to(event: u8, target: u16) -> Step {
    Step { event, target }
}

// The bytes of a table: for each state where its steps begin and how many they are, then all steps. The program of
// `table` has such a builder too; one for both would need a crate of its own.
fn bytes_of(
    heap: Global,
    start: u16,
    pairs: &[(u32, u32)],
    steps: &[Step],
) -> Result<Vec<u8>, AllocError> {
    let mut bytes = Vec::new(heap);
    bytes.extend_from_slice(&u16::try_from(pairs.len()).unwrap_or(0).to_be_bytes())?;
    bytes.extend_from_slice(&start.to_be_bytes())?;
    bytes.extend_from_slice(&u32::try_from(steps.len()).unwrap_or(0).to_be_bytes())?;
    for pair in pairs {
        bytes.extend_from_slice(&pair.0.to_be_bytes())?;
        bytes.extend_from_slice(&pair.1.to_be_bytes())?;
    }
    for step in steps {
        bytes.extend_from_slice(&[step.event, 0])?;
        bytes.extend_from_slice(&step.target.to_be_bytes())?;
    }
    Ok(bytes)
}

fn list(rt: &HostRuntime, table: &NormalTable, node: u16) -> io::Result<()> {
    for Step { event, target } in table.steps(node) {
        print!(rt; "; {node} {event} {target}")?;
    }
    Ok(())
}

fn nodes(rt: &HostRuntime, bytes: &[u8]) -> io::Result<()> {
    let table = NormalTable::take_up(bytes);
    let count = table.states();
    print!(rt; "{count} nodes")?;
    for node in 0..count.min(9) {
        list(rt, &table, node)?;
    }
    Ok(())
}

fn all(out: &[u8], value: u8) -> bool {
    out.iter().all(|&byte| byte == value)
}

// What a refusal leaves in a buffer of sevens.
fn held(out: &[u8]) -> &'static str {
    if all(out, 7) {
        return "unchanged";
    }
    if all(out, 0) {
        return "zero";
    }
    "mixed"
}

fn tell(rt: &HostRuntime, name: &str, bytes: &[u8], sets: usize, room: usize) -> io::Result<()> {
    let mut rows = Vec::new(rt.alloc());
    rows.resize(sets, StateSet { words: [9; 4] })?;
    let mut out = Vec::new(rt.alloc());
    out.resize(room, 7)?;
    print!(rt; "{name}: ")?;
    match normalise(bytes, rows.as_mut_slice(), out.as_mut_slice()) {
        Ok(size) => {
            print!(rt; "{size} bytes, ")?;
            let end = size.min(out.len());
            nodes(rt, &out.as_slice()[..end])?;
        }
        // By the fields of the fault: each program of cases words its own line.
        Err(f) => {
            let number = f.refusal.number();
            let place = f.place;
            let left = held(out.as_slice());
            print!(rt; "{number} at {place}, {left}")?;
        }
    }
    if rows.as_slice().iter().all(|row| row.is_empty()) {
        println!(rt; "")
    } else {
        println!(rt; ", rows not blank")
    }
}

fn case(
    rt: &HostRuntime,
    name: &str,
    start: u16,
    pairs: &[(u32, u32)],
    steps: &[Step],
) -> io::Result<()> {
    let bytes = bytes_of(rt.alloc(), start, pairs, steps)?;
    tell(rt, name, &bytes, 8, 256)
}

fn taus(rt: &HostRuntime) -> io::Result<()> {
    let worked = [to(A, 1), to(A, 2), to(B, 0), to(0, 0)];
    case(rt, "worked case", 0, &[(0, 2), (2, 1), (3, 1)], &worked)?;
    case(rt, "one state", 0, &[(0, 0)], &[])?;
    let cycle = [to(0, 1), to(A, 0), to(0, 0), to(B, 1)];
    case(rt, "a tau cycle", 0, &[(0, 2), (2, 2)], &cycle)?;
    let back = [to(A, 0), to(B, 0)];
    case(rt, "start is 1", 1, &[(0, 1), (1, 1)], &back)
}

fn ticks(rt: &HostRuntime) -> io::Result<()> {
    let one = [to(1, 1), to(A, 1)];
    case(rt, "tick and a to one end", 0, &[(0, 2), (2, 0)], &one)?;
    let later = [to(0, 1), to(1, 2)];
    case(rt, "tick after tau", 0, &[(0, 1), (1, 1), (2, 0)], &later)?;
    let ends = [to(1, 1), to(A, 1), to(A, 2), to(1, 3)];
    case(rt, "two ends", 0, &[(0, 3), (3, 0), (3, 1), (4, 0)], &ends)
}

fn refused(rt: &HostRuntime) -> io::Result<()> {
    tell(rt, "no bytes", &[], 8, 64)?;
    case(rt, "no such start", 1, &[(0, 0)], &[])?;
    let high = [to(64, 0)];
    case(rt, "event 64", 0, &[(0, 1)], &high)?;
    let last = [to(63, 0)];
    case(rt, "event 63", 0, &[(0, 1)], &last)
}

// The third letter from the end is an a: eight nodes.
fn third(rt: &HostRuntime) -> io::Result<()> {
    let steps = [
        to(A, 0),
        to(B, 0),
        to(A, 1),
        to(A, 2),
        to(B, 2),
        to(A, 3),
        to(B, 3),
    ];
    let bytes = bytes_of(rt.alloc(), 0, &[(0, 3), (3, 2), (5, 2), (7, 0)], &steps)?;
    tell(rt, "third from the end, 8 sets", &bytes, 8, 136)?;
    tell(rt, "7 sets", &bytes, 7, 136)?;
    tell(rt, "no sets", &bytes, 0, 136)?;
    tell(rt, "135 bytes", &bytes, 8, 135)?;
    tell(rt, "71 bytes", &bytes, 8, 71)
}

fn many(rt: &HostRuntime) -> io::Result<()> {
    let pairs = [(0, 0); 257];
    let under = bytes_of(rt.alloc(), 255, &pairs[0..256], &[])?;
    tell(rt, "256 states", &under, 1, 16)?;
    let over = bytes_of(rt.alloc(), 0, &pairs, &[])?;
    tell(rt, "257 states", &over, 1, 16)
}

fn main(rt: HostRuntime) -> io::Result<()> {
    taus(&rt)?;
    ticks(&rt)?;
    refused(&rt)?;
    third(&rt)?;
    many(&rt)
}
