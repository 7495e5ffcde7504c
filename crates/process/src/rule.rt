// The sides of the operators that read their parts: what a step of that side gives. A mask stands beside its number in
// each that has one, since a struct for the two would be made and taken apart at every use.
#[derive(Clone, Copy)]
pub enum Rule {
    // a name: its body's step
    Body,
    ExternalLeft,
    ExternalRight,
    SequenceLeft,
    // the mask and its number
    ParallelLeft(u64, u8),
    ParallelRight(u64, u8),
    // the mask and its number, and the event of the left side's step
    Joint(u64, u8, u8),
    HideLeft(u64, u8),
    InterruptLeft,
    InterruptRight,
}
