use crate::{refusal_text, refused_text};
use fault::{Fault, Refusal};

const ROW: Fault = Fault {
    refusal: Refusal::FileRow,
    place: 3,
};

// Where there is memory, a refusal is written: its number and place, then its words.
#[test]
fn a_refusal_is_written(rt: HostRuntime) {
    let heap = rt.alloc();
    let told = refusal_text(heap, "REFUSED", ROW);
    assert!(rt; told.is_ok_and(|t| t.as_str().starts_with("REFUSED 5 3\n")));
    let model = refused_text(heap, ROW);
    assert!(rt; model.is_ok_and(|t| t.as_str().starts_with("MODEL 5 3\n")));
}
