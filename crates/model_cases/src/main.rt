// Model files on both sides of each limit, each refusal at a first, a middle and a last place.
#![tactic(auto)]

mod build;

use build::{Parts, padded, patched};
use fault::Code;
use model::{Drafted, check};
use std::alloc::Global;

// The rows of the settled model: none where the file or settling was refused.
fn settled_rows(file: &[u8]) -> usize {
    let draft = Drafted::take_up(file);
    let settled = draft.settle();
    settled.file().rows()
}

// Prints what check answers, or settling after it, and how many rows the settled model has.
fn report(rt: &impl Print, name: &str, file: &[u8]) -> anyhow::Result<()> {
    let rows = settled_rows(file);
    match check(file).and_then(|()| Drafted::take_up(file).check_settled()) {
        Ok(()) => println!(rt; "{name}: settled, rows {rows}")?,
        Err(fault) => {
            let code = Code(fault);
            println!(rt; "{name}: {code}, rows {rows}")?;
        }
    }
    Ok(())
}

// a -> STOP and a name of it, with two masks: 28 + 16 + 32 + 4 = 80 bytes.
fn small(heap: Global) -> anyhow::Result<Vec<u8>> {
    let mut parts = Parts::new(heap, 2);
    parts.masks.push(4)?;
    parts.masks.push(12)?;
    parts.row(0, 0, 0, 0)?;
    parts.row(3, 2, 0, 0)?;
    parts.row(10, 0, 0, 0)?;
    parts.row(7, 1, 1, 2)?;
    parts.bodies.push(1)?;
    parts.bodies.push(3)?;
    Ok(parts.file(heap)?)
}

fn lengths(rt: &impl Print, heap: Global) -> anyhow::Result<()> {
    report(rt, "27 bytes", &[0; 27])?;
    let none = Parts::new(heap, 0).file(heap)?;
    report(rt, "28 bytes, no rows", none.as_slice())?;
    report(rt, "80 bytes", small(heap)?.as_slice())?;
    report(
        rt,
        "65536 bytes, a gap at the end",
        padded(small(heap)?, 65536)?.as_slice(),
    )?;
    report(rt, "65537 bytes", padded(small(heap)?, 65537)?.as_slice())
}

// The small file with one byte changed.
#[derive(Clone, Copy)]
struct Patch {
    name: &'static str,
    at: usize,
    byte: u8,
}

static PATCHES: [Patch; 27] = [
    Patch {
        name: "version 0",
        at: 1,
        byte: 0,
    },
    Patch {
        name: "version 257",
        at: 0,
        byte: 1,
    },
    Patch {
        name: "62 events",
        at: 2,
        byte: 62,
    },
    Patch {
        name: "63 events",
        at: 2,
        byte: 63,
    },
    Patch {
        name: "4 sections",
        at: 3,
        byte: 4,
    },
    Patch {
        name: "masks at 27",
        at: 7,
        byte: 27,
    },
    Patch {
        name: "masks of 9 bytes",
        at: 11,
        byte: 9,
    },
    Patch {
        name: "rows inside the masks",
        at: 15,
        byte: 43,
    },
    Patch {
        name: "rows of 0 bytes",
        at: 19,
        byte: 0,
    },
    Patch {
        name: "definitions at the rows' end",
        at: 23,
        byte: 76,
    },
    Patch {
        name: "definitions before the rows' end",
        at: 23,
        byte: 75,
    },
    Patch {
        name: "definitions of 3 bytes",
        at: 27,
        byte: 3,
    },
    Patch {
        name: "definitions past the file",
        at: 27,
        byte: 6,
    },
    Patch {
        name: "kind 2",
        at: 44,
        byte: 2,
    },
    Patch {
        name: "kind 11",
        at: 68,
        byte: 11,
    },
    Patch {
        name: "STOP with an argument",
        at: 45,
        byte: 2,
    },
    Patch {
        name: "STOP with a spare byte",
        at: 51,
        byte: 1,
    },
    Patch {
        name: "prefix of tick",
        at: 53,
        byte: 1,
    },
    Patch {
        name: "prefix of event E + 2",
        at: 53,
        byte: 4,
    },
    Patch {
        name: "prefix of itself",
        at: 55,
        byte: 1,
    },
    Patch {
        name: "prefix with a right",
        at: 57,
        byte: 1,
    },
    Patch {
        name: "name of no definition",
        at: 63,
        byte: 2,
    },
    Patch {
        name: "parallel under no mask",
        at: 69,
        byte: 2,
    },
    Patch {
        name: "parallel with itself",
        at: 73,
        byte: 3,
    },
    Patch {
        name: "tau in a mask",
        at: 35,
        byte: 5,
    },
    Patch {
        name: "tick in a mask",
        at: 43,
        byte: 14,
    },
    Patch {
        name: "event 63 in a mask, 2 events",
        at: 28,
        byte: 128,
    },
];

fn patches(rt: &impl Print, heap: Global) -> anyhow::Result<()> {
    for p in &PATCHES {
        report(
            rt,
            p.name,
            patched(small(heap)?, p.at, &[p.byte]).as_slice(),
        )?;
    }
    Ok(())
}

// Sections that end past 2^32, at the end of the file and past it.
fn ends(rt: &impl Print, heap: Global) -> anyhow::Result<()> {
    report(
        rt,
        "an end past 2^32",
        patched(small(heap)?, 20, &[255, 255, 255, 254, 0, 0, 0, 4]).as_slice(),
    )?;
    report(
        rt,
        "empty definitions past the file",
        patched(small(heap)?, 20, &[0, 0, 0, 81, 0, 0, 0, 0]).as_slice(),
    )?;
    let mut parts = Parts::new(heap, 0);
    parts.row(0, 0, 0, 0)?;
    report(
        rt,
        "one row, empty masks and definitions",
        parts.file(heap)?.as_slice(),
    )
}

#[derive(Clone, Copy)]
enum Entry {
    Mask,
    Row,
    Definition,
}

// So many entries of a kind.
fn counts(rt: &impl Print, heap: Global, n: u16, of: Entry) -> anyhow::Result<()> {
    let mut parts = Parts::new(heap, 62);
    let name = match of {
        Entry::Mask => {
            parts.row(0, 0, 0, 0)?;
            parts.masks.resize(n as usize, 0)?;
            "masks"
        }
        Entry::Row => {
            parts.many_rows(n)?;
            "rows"
        }
        Entry::Definition => {
            parts.row(0, 0, 0, 0)?;
            parts.bodies.resize(n as usize, 0)?;
            "definitions"
        }
    };
    println!(rt; "{n} of")?;
    report(rt, name, parts.file(heap)?.as_slice())
}

fn heights(rt: &impl Print, heap: Global) -> anyhow::Result<()> {
    for n in [64u16, 65, 100] {
        let mut parts = Parts::new(heap, 2);
        parts.tower(n)?;
        println!(rt; "rows, each over the one before: {n}")?;
        report(rt, "height", parts.file(heap)?.as_slice())?;
    }
    Ok(())
}

fn masks(rt: &impl Print, heap: Global) -> anyhow::Result<()> {
    for at in [0usize, 31, 63] {
        let mut parts = Parts::new(heap, 2);
        parts.row(0, 0, 0, 0)?;
        for i in 0..64usize {
            parts.masks.push(if i == at { 16 } else { 12 })?;
        }
        report(rt, "event E + 2 in a mask", parts.file(heap)?.as_slice())?;
    }
    let full = patched(
        patched(small(heap)?, 2, &[62]),
        28,
        &[255, 255, 255, 255, 255, 255, 255, 252],
    );
    report(
        rt,
        "every visible event in a mask, 62 events",
        full.as_slice(),
    )
}

fn repeats(rt: &impl Print, heap: Global) -> anyhow::Result<()> {
    for at in [1u16, 2048, 4095] {
        let mut parts = Parts::new(heap, 62);
        parts.many_rows(at)?;
        parts.row(0, 0, 0, 0)?;
        report(rt, "a row as row 0", parts.file(heap)?.as_slice())?;
    }
    let late = patched(patched(small(heap)?, 52, &[0, 0]), 68, &[11]);
    report(rt, "a repeat before a wrong kind", late.as_slice())
}

fn definitions(rt: &impl Print, heap: Global) -> anyhow::Result<()> {
    for at in [0usize, 31, 63] {
        let mut parts = Parts::new(heap, 2);
        parts.row(0, 0, 0, 0)?;
        for i in 0..64usize {
            parts.bodies.push(if i == at { 1 } else { 0 })?;
        }
        report(rt, "a body that is no row", parts.file(heap)?.as_slice())?;
    }
    Ok(())
}

// Definitions whose bodies are names: definition d opens the d-th of `opens`.
fn names(rt: &impl Print, heap: Global, name: &str, opens: &[u16]) -> anyhow::Result<()> {
    let mut parts = Parts::new(heap, 2);
    for d in 0..64u16 {
        parts.row(10, 0, d, 0)?;
    }
    for d in opens {
        parts.bodies.push(*d)?;
    }
    for _ in opens.len()..64 {
        parts.row(0, 0, 0, 0)?;
        parts.bodies.push(64)?;
        parts.rows.truncate(65);
    }
    report(rt, name, parts.file(heap)?.as_slice())
}

fn settling(rt: &impl Print, heap: Global) -> anyhow::Result<()> {
    let mut guarded = Parts::new(heap, 2);
    guarded.row(0, 0, 0, 0)?;
    guarded.row(3, 2, 0, 0)?;
    guarded.row(10, 0, 0, 0)?;
    guarded.row(5, 0, 2, 1)?;
    guarded.bodies.push(3)?;
    report(rt, "N = N |~| a -> STOP", guarded.file(heap)?.as_slice())?;
    names(rt, heap, "N0 = N0", &[0])?;
    names(rt, heap, "N0 = STOP, N1 = N0", &[64, 0])?;
    names(rt, heap, "N0 = STOP, N1 = N1", &[64, 1])?;
    names(rt, heap, "N0 = N1, N1 = N1", &[1, 1])?;
    names(rt, heap, "N0 = STOP, N1 = N63", &[64, 63])
}

fn main(rt: HostRuntime) -> anyhow::Result<()> {
    let heap = rt.alloc();
    lengths(&rt, heap)?;
    patches(&rt, heap)?;
    ends(&rt, heap)?;
    for n in [64, 65] {
        counts(&rt, heap, n, Entry::Mask)?;
        counts(&rt, heap, n, Entry::Definition)?;
        counts(&rt, heap, n + 4032, Entry::Row)?;
    }
    heights(&rt, heap)?;
    masks(&rt, heap)?;
    repeats(&rt, heap)?;
    definitions(&rt, heap)?;
    settling(&rt, heap)
}
