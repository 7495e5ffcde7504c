// The steps of a process of each operator, with tau, tick and a visible event on each side; and processes that share
// their parts so that reading them without memory would not end.
#![tactic(auto)]

use model::{Drafted, Op, Row};
use process::{Workspace, list_steps};
use std::alloc::{AllocError, Global};
use std::io;

// A row of a model file: kind, argument, left, right.
#[derive(Clone, Copy)]
struct Line(u8, u8, u16, u16);

const A: u8 = 2;

const B: u8 = 3;

const ROWS: [(&'static str, Line); 27] = [
    ("STOP", Line(0, 0, 0, 0)),
    ("SKIP", Line(1, 0, 0, 0)),
    ("a -> STOP", Line(3, A, 0, 0)),
    ("b -> STOP", Line(3, B, 0, 0)),
    ("STOP |~| SKIP", Line(5, 0, 0, 1)),
    ("SKIP [] a -> STOP", Line(4, 0, 1, 2)),
    ("(STOP |~| SKIP) [] a -> STOP", Line(4, 0, 4, 2)),
    ("a -> STOP [] (STOP |~| SKIP)", Line(4, 0, 2, 4)),
    ("SKIP ; a -> STOP", Line(6, 0, 1, 2)),
    ("a -> STOP ; SKIP", Line(6, 0, 2, 1)),
    ("(STOP |~| SKIP) ; a -> STOP", Line(6, 0, 4, 2)),
    ("a -> STOP [|{a}|] b -> STOP", Line(7, 1, 2, 3)),
    ("SKIP [|{}|] STOP", Line(7, 0, 1, 0)),
    ("SKIP [|{}|] SKIP", Line(7, 0, 1, 1)),
    ("a -> STOP [|{a}|] a -> STOP", Line(7, 1, 2, 2)),
    ("(STOP |~| SKIP) [|{}|] b -> STOP", Line(7, 0, 4, 3)),
    ("b -> STOP [|{}|] (STOP |~| SKIP)", Line(7, 0, 3, 4)),
    ("(a -> STOP) \\ {a}", Line(8, 1, 2, 0)),
    ("(b -> STOP) \\ {a}", Line(8, 1, 3, 0)),
    ("SKIP \\ {a}", Line(8, 1, 1, 0)),
    ("(STOP |~| SKIP) \\ {}", Line(8, 0, 4, 0)),
    ("a -> STOP /\\ b -> STOP", Line(9, 0, 2, 3)),
    ("SKIP /\\ (STOP |~| SKIP)", Line(9, 0, 1, 4)),
    ("(STOP |~| SKIP) /\\ SKIP", Line(9, 0, 4, 1)),
    ("a -> STOP [] a -> STOP", Line(4, 0, 2, 2)),
    ("N = a -> N", Line(10, 0, 0, 0)),
    ("a -> N", Line(3, A, 25, 0)),
];

// The bytes of a model file with two visible events and the masks {} and {a}. The program of model cases builds its own:
// they are two programs, and sharing would need a crate of its own.
fn file_of(heap: Global, lines: &[Line], definitions: &[u16]) -> Result<Vec<u8>, AllocError> {
    let rows = u32::try_from(lines.len()).unwrap_or(0).saturating_mul(8);
    let named = u32::try_from(definitions.len())
        .unwrap_or(0)
        .saturating_mul(2);
    let mut bytes = Vec::new(heap);
    bytes.extend_from_slice(&[0, 1, 2, 3])?;
    bytes.extend_from_slice(&28u32.to_be_bytes())?;
    bytes.extend_from_slice(&16u32.to_be_bytes())?;
    bytes.extend_from_slice(&44u32.to_be_bytes())?;
    bytes.extend_from_slice(&rows.to_be_bytes())?;
    bytes.extend_from_slice(&rows.saturating_add(44).to_be_bytes())?;
    bytes.extend_from_slice(&named.to_be_bytes())?;
    bytes.extend_from_slice(&0u64.to_be_bytes())?;
    bytes.extend_from_slice(&4u64.to_be_bytes())?;
    for line in lines {
        bytes.extend_from_slice(&[line.0, line.1])?;
        bytes.extend_from_slice(&line.2.to_be_bytes())?;
        bytes.extend_from_slice(&line.3.to_be_bytes())?;
        bytes.extend_from_slice(&[0, 0])?;
    }
    for d in definitions {
        bytes.extend_from_slice(&d.to_be_bytes())?;
    }
    Ok(bytes)
}

// A term row, with the numbers of its parts. Not by the display of a row: the stored output has another form.
fn show(rt: &HostRuntime, row: Row) -> io::Result<()> {
    let left = row.left;
    let right = row.right;
    match row.op {
        Op::Stop => print!(rt; "STOP"),
        Op::Skip => print!(rt; "SKIP"),
        Op::Omega => print!(rt; "Omega"),
        Op::Prefix(a) => print!(rt; "{a} -> {left}"),
        Op::External => print!(rt; "{left} [] {right}"),
        Op::Internal => print!(rt; "{left} |~| {right}"),
        Op::Sequence => print!(rt; "{left} ; {right}"),
        Op::Parallel(m) => print!(rt; "{left} [|{m}|] {right}"),
        Op::Hide(m) => print!(rt; "{left} \\ {m}"),
        Op::Interrupt => print!(rt; "{left} /\\ {right}"),
        Op::Name(d) => print!(rt; "name {d}"),
    }
}

// The steps of a row: each event, and the term row after it.
fn steps(
    rt: &HostRuntime,
    bytes: &[u8],
    row: usize,
    rows: &mut [Row],
    work: &mut Workspace,
) -> io::Result<()> {
    let model = Drafted::take_up(bytes).settle();
    match list_steps(&model, row, rows, work) {
        Err(f) => {
            // Not by `Code`: the stored output has another form.
            let number = f.refusal.number();
            let place = f.place;
            print!(rt; " refused {number} at {place}")?;
        }
        Ok(n) => {
            for step in (0..n).filter_map(|k| work.step(row, k)) {
                let event = step.event;
                let next = step.next;
                print!(rt; " {event} to {next} (")?;
                if let Some(after) = rows.get(next as usize) {
                    show(rt, *after)?;
                }
                print!(rt; ")")?;
            }
        }
    }
    println!(rt; "")
}

fn operators(rt: &HostRuntime, rows: &mut [Row], work: &mut Workspace) -> io::Result<()> {
    let mut lines = Vec::new(rt.alloc());
    for (_, line) in &ROWS {
        lines.push(*line)?;
    }
    let bytes = file_of(rt.alloc(), lines.as_slice(), &[26])?;
    for (i, (name, _)) in ROWS.iter().enumerate() {
        print!(rt; "{i} {name}:")?;
        steps(rt, &bytes, i, rows, work)?;
    }
    print!(rt; "no such row:")?;
    steps(rt, &bytes, 27, rows, work)?;
    print!(rt; "too few rows:")?;
    let few = rows.len().min(27);
    steps(rt, &bytes, 8, &mut rows[0..few], work)
}

// Each definition is the external choice of the one before with itself: 2 to the 63 paths to the first.
fn doubled_names(rt: &HostRuntime, rows: &mut [Row], work: &mut Workspace) -> io::Result<()> {
    let mut lines = Vec::new(rt.alloc());
    lines.push(Line(0, 0, 0, 0))?;
    lines.push(Line(3, A, 0, 0))?;
    let mut definitions = Vec::new(rt.alloc());
    definitions.push(1)?;
    for d in 0u16..63 {
        let name = 2 + 2 * d;
        lines.push(Line(10, 0, d, 0))?;
        lines.push(Line(4, 0, name, name))?;
        definitions.push(name + 1)?;
    }
    let bytes = file_of(rt.alloc(), lines.as_slice(), definitions.as_slice())?;
    print!(rt; "doubled names:")?;
    steps(rt, &bytes, 127, rows, work)
}

// Each row is the external choice of the one before with itself, 64 high.
fn doubled_rows(rt: &HostRuntime, rows: &mut [Row], work: &mut Workspace) -> io::Result<()> {
    let mut lines = Vec::new(rt.alloc());
    lines.push(Line(0, 0, 0, 0))?;
    lines.push(Line(3, A, 0, 0))?;
    for i in 1u16..63 {
        lines.push(Line(4, 0, i, i))?;
    }
    let bytes = file_of(rt.alloc(), lines.as_slice(), &[])?;
    print!(rt; "doubled rows:")?;
    steps(rt, &bytes, 63, rows, work)
}

// 64 definitions, each 63 high over the name of the one before: reading goes about 4,000 levels deep.
fn deep(rt: &HostRuntime, rows: &mut [Row], work: &mut Workspace) -> io::Result<()> {
    let mut lines = Vec::new(rt.alloc());
    lines.push(Line(0, 0, 0, 0))?;
    let mut definitions = Vec::new(rt.alloc());
    for d in 0u16..64 {
        let first = 1 + 63 * d;
        if d == 0 {
            lines.push(Line(3, A, 0, 0))?;
        } else {
            lines.push(Line(10, 0, d - 1, 0))?;
        }
        for i in 0u16..62 {
            lines.push(Line(4, 0, first + i, 0))?;
        }
        definitions.push(first + 62)?;
    }
    let bytes = file_of(rt.alloc(), lines.as_slice(), definitions.as_slice())?;
    print!(rt; "deep:")?;
    steps(rt, &bytes, 4032, rows, work)
}

fn main(rt: HostRuntime) -> io::Result<()> {
    let mut rows = vec![in rt.alloc(); Row::default(); 9000]?;
    let mut work = Workspace::new(rt.alloc(), 9000)?;
    operators(&rt, rows.as_mut_slice(), &mut work)?;
    doubled_names(&rt, rows.as_mut_slice(), &mut work)?;
    doubled_rows(&rt, rows.as_mut_slice(), &mut work)?;
    deep(&rt, rows.as_mut_slice(), &mut work)
}
