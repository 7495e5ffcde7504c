// Writing the parts of a table to a buffer.
ghost use Rattle.std.specs.Prelude.{◌+◌, ◌<◌, ◌≤◌, length};
ghost use Rattle.lent_bytes.specs.Reads.{be};
ghost use Rattle.normalise.specs.Puts.{Put, PairPut, StepPut};

// Writes the big-endian bytes of a number.
pub(crate) fn put<const N: usize>(out: &mut [u8], at: usize, bytes: [u8; N])
    requires { at + N ≤ length out.old }
    ensures { Put out.old out.new at N (be bytes.entry 0 N) }
{
    out[at..at + N].copy_from_slice(&bytes);
}

pub(crate) fn put_pair(out: &mut [u8], at: usize, offset: u32, size: u32)
    requires { at + 8 ≤ length out.old }
    ensures { PairPut out.old out.new at offset size }
{
    put(out, at, offset.to_be_bytes());
    put(out, at + 4, size.to_be_bytes());
}

pub(crate) fn put_step(out: &mut [u8], at: usize, event: u8, target: u16)
    requires { at + 4 ≤ length out.old }
    ensures { StepPut out.old out.new at event target }
{
    out[at] = event;
    out[at + 1] = 0;
    put(out, at + 2, target.to_be_bytes());
}
