// A step of a state: its event (0 is tau, 1 is tick, 2 to 63 are visible) and the state it leads to.
#[derive(Clone, Copy)]
pub struct Step {
    pub event: u8,
    pub target: u16,
}
