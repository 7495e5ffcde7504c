// The audit at work on registers, tables and tables side by side: what it accepts, and each of its refusals.
#![tactic(auto)]

ghost use Rattle.std.specs.Prelude.{◌≡◌, is_ok, Err};
ghost use Rattle.systems.specs.Faults.{fault, AuditStart};

mod toggle;

use audit::audit;
use beside::{Beside, check_mask};
use std::io;
use systems::{Fault, Normal, NormalTable, Register, System, Table, steps_of};
use toggle::Toggle;

// A counter of two states: event 2 leads up, event 3 down.
const COUNTER: [u8; 32] = [
    0, 2, 0, 0, 0, 0, 0, 2, 0, 0, 0, 0, 0, 0, 0, 1, 0, 0, 0, 1, 0, 0, 0, 1, 2, 0, 0, 1, 3, 0, 0, 0,
];

// Event 2, then tick; and the same with event 3.
const LEFT: [u8; 40] = [
    0, 3, 0, 0, 0, 0, 0, 2, 0, 0, 0, 0, 0, 0, 0, 1, 0, 0, 0, 1, 0, 0, 0, 1, 0, 0, 0, 2, 0, 0, 0, 0,
    2, 0, 0, 1, 1, 0, 0, 2,
];

const RIGHT: [u8; 40] = [
    0, 3, 0, 0, 0, 0, 0, 2, 0, 0, 0, 0, 0, 0, 0, 1, 0, 0, 0, 1, 0, 0, 0, 1, 0, 0, 0, 2, 0, 0, 0, 0,
    3, 0, 0, 1, 1, 0, 0, 2,
];

// Events 2 and 3 in either order, then tick.
const EITHER: [u8; 68] = [
    0, 5, 0, 0, 0, 0, 0, 5, 0, 0, 0, 0, 0, 0, 0, 2, 0, 0, 0, 2, 0, 0, 0, 1, 0, 0, 0, 3, 0, 0, 0, 1,
    0, 0, 0, 4, 0, 0, 0, 1, 0, 0, 0, 5, 0, 0, 0, 0, 2, 0, 0, 1, 3, 0, 0, 2, 3, 0, 0, 3, 2, 0, 0, 3,
    1, 0, 0, 4,
];

// The theorem of the empty list: whatever the two systems are, the start pair is missing.
fn audit_nothing<D: System, S: Normal>(design: &D, spec: &S) -> Result<(), Fault>
    ensures { result ≡ Err (fault AuditStart 0) }
{
    let nothing: [(D::State, S::State); 0] = [];
    audit(design, spec, &nothing)
}

// A refusal by the fields of its fault; each program words its own line.
fn show(rt: &HostRuntime, what: &str, answer: Result<(), Fault>) -> io::Result<()> {
    match answer {
        Ok(()) => println!(rt; "{what}: accepted"),
        Err(fault) => {
            let number = fault.refusal.number();
            let place = fault.place;
            println!(rt; "{what}: refused {number} at {place}")
        }
    }
}

// A register of a sample; one that is refused ends the program with an error.
fn sample(limit: u16, up: u8, down: u8, iszero: u8) -> io::Result<Register> {
    Register::new(limit, up, down, iszero).map_err(|_| io::Error::from(io::ErrorKind::InvalidInput))
}

fn registers(
    rt: &HostRuntime,
    three: &Register,
    four: &Register,
    renamed: &Register,
) -> io::Result<()> {
    let pairs = [(0, 0), (1, 1), (2, 2), (3, 3), (4, 4)];
    show(rt, "limit 3 against 4", audit(three, four, &pairs[0..4]))?;
    show(rt, "limit 4 against 3", audit(four, three, &pairs))?;
    show(
        rt,
        "a pair struck out",
        audit(three, four, &[(0, 0), (1, 1), (3, 3)]),
    )?;
    show(rt, "the start struck out", audit(three, four, &pairs[1..4]))?;
    show(rt, "an event renamed", audit(renamed, four, &pairs[0..4]))?;
    show(rt, "nothing listed", audit_nothing(three, four))?;
    let odd = [(9, 9), (3, 3), (0, 0), (2, 2), (0, 0), (1, 1), (9, 0)];
    show(rt, "repeats and strangers", audit(three, four, &odd))
}

// Tau, two steps of event 2 with an event 3 between them, and tick last.
const MANY: [u8; 60] = [
    0, 4, 0, 0, 0, 0, 0, 5, 0, 0, 0, 0, 0, 0, 0, 5, 0, 0, 0, 5, 0, 0, 0, 0, 0, 0, 0, 5, 0, 0, 0, 0,
    0, 0, 0, 5, 0, 0, 0, 0, 0, 0, 0, 1, 2, 0, 0, 1, 3, 0, 0, 0, 2, 0, 0, 2, 1, 0, 0, 3,
];

// The steps of two such tables at their starts, in order.
fn listing(rt: &HostRuntime) -> io::Result<()> {
    let many = Table::take_up(&MANY);
    let both = Beside::take_up(many, many, 4);
    for (k, (event, (left, right))) in (0..12u8).zip(steps_of(&both, (0, 0))) {
        println!(rt; "step {k}: {event} to {left} {right}")?;
    }
    Ok(())
}

fn made(register: Result<Register, Fault>) -> Result<(), Fault>
    ensures { is_ok result ≡ is_ok register }
{
    register.map(|_| ())
}

// Both sides of each limit on a register's events, and the least register.
fn limits(rt: &HostRuntime, three: &Register) -> io::Result<()> {
    show(
        rt,
        "events 2, 3 and 63",
        made(Register::new(65535, 2, 3, 63)),
    )?;
    show(rt, "event 64", made(Register::new(3, 2, 3, 64)))?;
    show(rt, "event 1", made(Register::new(3, 2, 1, 4)))?;
    show(rt, "an event twice", made(Register::new(3, 2, 3, 2)))?;
    let none = sample(0, 2, 3, 4)?;
    show(rt, "limit 0 against 3", audit(&none, three, &[(0, 0)]))?;
    show(rt, "limit 3 against 0", audit(three, &none, &[(0, 0)]))?;
    show(
        rt,
        "a toggle against limit 3",
        audit(&Toggle, three, &[(0, 0), (1, 1)]),
    )?;
    show(
        rt,
        "limit 3 against a toggle",
        audit(three, &Toggle, &[(0, 0), (1, 1)]),
    )
}

fn tables(rt: &HostRuntime, three: &Register) -> io::Result<()> {
    let counter = Table::take_up(&COUNTER);
    show(
        rt,
        "a table against a register",
        audit(&counter, three, &[(0, 0), (1, 1)]),
    )?;
    show(
        rt,
        "without its second pair",
        audit(&counter, three, &[(0, 0)]),
    )?;
    let none = Table::take_up(&[]);
    show(rt, "a refused table", audit(&none, three, &[(0, 0)]))
}

fn side_by_side(rt: &HostRuntime) -> io::Result<()> {
    let left = Table::take_up(&LEFT);
    let right = Table::take_up(&RIGHT);
    let spec = NormalTable::take_up(&EITHER);
    let pairs = [
        ((0, 0), 0),
        ((1, 0), 1),
        ((0, 1), 2),
        ((1, 1), 3),
        ((2, 2), 4),
    ];
    show(
        rt,
        "side by side, no event shared",
        audit(&Beside::take_up(left, right, 0), &spec, &pairs),
    )?;
    show(
        rt,
        "without the pair after tick",
        audit(&Beside::take_up(left, right, 0), &spec, &pairs[0..4]),
    )?;
    show(
        rt,
        "both share both events",
        audit(&Beside::take_up(left, right, 12), &spec, &pairs[0..1]),
    )?;
    show(
        rt,
        "one table twice",
        audit(
            &Beside::take_up(left, left, 4),
            &spec,
            &[((0, 0), 0), ((1, 1), 1)],
        ),
    )?;
    let past = [
        ((9, 0), 1),
        ((0, 0), 0),
        ((1, 0), 1),
        ((0, 1), 2),
        ((1, 1), 3),
        ((2, 2), 4),
        ((9, 1), 3),
    ];
    show(
        rt,
        "a side past its states",
        audit(&Beside::take_up(left, right, 0), &spec, &past),
    )?;
    show(
        rt,
        "whose other side moves",
        audit(&Beside::take_up(left, right, 0), &spec, &past[0..6]),
    )?;
    show(rt, "a mask with tick", check_mask(2))?;
    show(
        rt,
        "is taken up as empty",
        audit(&Beside::take_up(left, right, 2), &spec, &pairs),
    )
}

fn main(rt: HostRuntime) -> io::Result<()> {
    let three = sample(3, 2, 3, 4)?;
    let four = sample(4, 2, 3, 4)?;
    let renamed = sample(3, 5, 3, 4)?;
    registers(&rt, &three, &four, &renamed)?;
    limits(&rt, &three)?;
    tables(&rt, &three)?;
    side_by_side(&rt)?;
    listing(&rt)
}
