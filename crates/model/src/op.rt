// The operators of a process, what each field of a row means for them, and a row.
ghost use Rattle.std.specs.Prelude.{◌≡◌, ◌≢◌};
ghost use Rattle.model.specs.declared.op.Use.TheVariants.{Part};
ghost use Rattle.model.specs.Ops.{shape, op_of};

// An operator with its argument. Omega is the process that has ended; it stands in no file.
#[derive(Clone, Copy, PartialEq, Eq, Debug, Default)]
pub enum Op {
    #[default]
    Stop,
    Skip,
    Omega,
    // the event
    Prefix(u8),
    External,
    Internal,
    Sequence,
    // the number of the mask
    Parallel(u8),
    // the number of the mask
    Hide(u8),
    Interrupt,
    // the number of the definition
    Name(u16),
}

// What a field of a row holds.
#[derive(Clone, Copy, PartialEq, Eq, Debug)]
pub enum Use {
    Unused,
    Event,
    Mask,
    Part,
    Definition,
}

// The uses of a row's three fields.
#[derive(Clone, Copy, PartialEq, Eq, Debug)]
pub struct Shape {
    pub argument: Use,
    pub left: Use,
    pub right: Use,
}

// A process: an operator over rows that stand before it, by number, since a file's rows share their parts. A field
// that is no part is 0.
#[derive(Clone, Copy, PartialEq, Eq, Debug, Default)]
pub struct Row {
    pub op: Op,
    pub left: u16,
    pub right: u16,
}

impl Use {
    // What the field's part gives where the field holds one, else the default.
    pub fn part_or_default<T: Default + Drop>(self, part: T) -> T
        ensures part { self ≡ Part → result ≡ part }
        ensures other { self ≢ Part → T.is_default result }
    {
        match self {
            Use::Part => part,
            Use::Unused | Use::Event | Use::Mask | Use::Definition => T::default(),
        }
    }
}

impl Op {
    // The one table of what the fields of each operator hold.
    pub fn shape(self) -> Shape
        ensures { result ≡ shape self }
    {
        let (argument, left, right) = match self {
            Op::Stop | Op::Skip | Op::Omega => (Use::Unused, Use::Unused, Use::Unused),
            Op::Prefix(_) => (Use::Event, Use::Part, Use::Unused),
            Op::External | Op::Internal | Op::Sequence | Op::Interrupt => (
                Use::Unused,
                Use::Part,
                Use::Part,
            ),
            Op::Parallel(_) => (Use::Mask, Use::Part, Use::Part),
            Op::Hide(_) => (Use::Mask, Use::Part, Use::Unused),
            Op::Name(_) => (Use::Unused, Use::Definition, Use::Unused),
        };
        Shape {
            argument,
            left,
            right,
        }
    }

    // The operator of a kind, with its argument; a name's is in the left field. Kind 2 is in no file. No `TryFrom`,
    // since three numbers in a tuple would not say which is which.
    pub fn of(kind: u8, argument: u8, left: u16) -> Option<Op>
        ensures { result ≡ op_of kind argument left }
    {
        match kind {
            0 => Some(Op::Stop),
            1 => Some(Op::Skip),
            3 => Some(Op::Prefix(argument)),
            4 => Some(Op::External),
            5 => Some(Op::Internal),
            6 => Some(Op::Sequence),
            7 => Some(Op::Parallel(argument)),
            8 => Some(Op::Hide(argument)),
            9 => Some(Op::Interrupt),
            10 => Some(Op::Name(left)),
            _ => None,
        }
    }
}
