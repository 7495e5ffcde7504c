use crate::gather::gather;
use first_seen::{FirstSeen, Full, Noted, Unfinished, find, find_among};
use search::Work;

fn row(design: u16, spec: u16, parent: u16) -> Work<u16, u16> {
    Work {
        design,
        spec,
        parent,
        event: 2,
    }
}

// Rows with one pair are the same, however they were come by.
#[test]
fn three_of_four_rows(rt: HostRuntime) {
    let mut rows = [row(9, 9, 9); 3];
    let all = [row(0, 0, 0), row(0, 1, 0), row(0, 0, 1), row(1, 0, 1)];
    assert!(rt; gather(&mut rows, &all).is_ok());
    assert!(rt; rows[0].design == 0);
    assert!(rt; gather(&mut rows[0..2], &all).is_err());
    assert!(rt; rows[1].spec == 0);
}

#[test]
fn found_placed_full(rt: HostRuntime) {
    let mut rows: [u16; 2] = [5, 5];
    assert!(rt; FirstSeen::over(&mut rows, 0).find(&5).is_none());
    assert!(rt; FirstSeen::over(&mut rows, 9).find(&5) == Some(0));
    assert!(rt; find(&rows, &5) == Some(0));
    assert!(rt; find_among(&rows, 0, &5).is_none());
    assert!(rt; find_among(&rows, 9, &5) == Some(0));
    let mut list = FirstSeen::over(&mut rows, 1);
    assert!(rt; list.room() == 2);
    assert!(rt; list.note(5) == Ok(Noted::Found(0)));
    assert!(rt; list.note(7) == Ok(Noted::Placed(1)));
    assert!(rt; list.note(8) == Err(Full));
    assert!(rt; list.items()[1] == 7);
    let mut all = FirstSeen::over(&mut rows, 3);
    assert!(rt; all.note(7) == Ok(Noted::Found(1)));
    assert!(rt; rows[1] == 7);
}

#[test]
fn kept_and_dropped(rt: HostRuntime) {
    let mut out: [u8; 2] = [1, 2];
    Unfinished { out: &mut out }.done();
    assert!(rt; out[1] == 2);
    {
        let _dropped = Unfinished { out: &mut out };
    }
    assert!(rt; out[0] == 0 && out[1] == 0);
}
