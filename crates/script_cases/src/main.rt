// Lines that are read and lines that are written.
#![tactic(auto)]

use fault::{Fault, Refusal};
use script::{Record, Verdict, model_line, read_line, record_line};
use std::alloc::Global;

static LINES: [&str; 20] = [
    "2 3",
    "0 0",
    "65535 65535",
    "00002 00003",
    "99999 0",
    "65536 0",
    "0 65536",
    "000002 3",
    "2 000003",
    "2",
    "2 ",
    " 3",
    "2  3",
    "2 3 ",
    "2\t3",
    "+2 3",
    "2 3\r",
    "",
    " ",
    "a b",
];

// What came of a line, as a record.
fn outcome(line: &str, place: usize) -> Record<'static> {
    match read_line(line.as_bytes(), place) {
        Ok(asked) => Record {
            asked: Some(asked),
            verdict: Verdict::Holds(place),
        },
        Err(fault) => Record {
            asked: None,
            verdict: Verdict::Refused(fault),
        },
    }
}

fn written(rt: &impl Print, heap: Global, r: Record) -> anyhow::Result<()> {
    let line = record_line(heap, r)?;
    rt.print(line)?;
    Ok(())
}

fn main(rt: HostRuntime) -> anyhow::Result<()> {
    let heap = rt.alloc();
    for (i, line) in LINES.iter().enumerate() {
        written(&rt, heap, outcome(line, i.saturating_add(1)))?;
    }
    let asked = read_line(b"9 2", 1).ok();
    written(
        &rt,
        heap,
        Record {
            asked,
            verdict: Verdict::Fails(2, &[2, 3]),
        },
    )?;
    written(
        &rt,
        heap,
        Record {
            asked,
            verdict: Verdict::Fails(0, &[]),
        },
    )?;
    let refused = Fault {
        refusal: Refusal::ProcessRow,
        place: 9,
    };
    written(
        &rt,
        heap,
        Record {
            asked,
            verdict: Verdict::Refused(refused),
        },
    )?;
    let wrong = model_line(
        heap,
        Fault {
            refusal: Refusal::FileRow,
            place: 4095,
        },
    )?;
    rt.print(wrong)?;
    Ok(())
}
