// Kinds of element that no other crate declares: a byte of a buffer and a number are blank as 0; numbers are the
// same when they are equal, and pairs when both parts are.
ghost use Rattle.std.specs.Prelude.{◌&&◌, nat_eq};
ghost use Rattle.std.proofs.Common.{rules};
ghost use Rattle.first_seen.specs.Sameness.{both_exact};

use crate::guard::Blank;
use crate::list::Same;

// One for each number type, since no trait of the library's says of each which value is 0.
impl Blank for u8 {
    ghost blank = { 0 };

    fn blank() -> u8 {
        0
    }
}

impl Blank for u16 {
    ghost blank = { 0 };

    fn blank() -> u16 {
        u16::default()
    }
}

impl Same for u16 {
    type Key = u16;

    ghost key = { λ x. x };

    ghost alike = { nat_eq };

    ghost exact = { Prim.search rules };

    fn same(&self, other: &u16) -> bool {
        *self == *other
    }
}

impl<A: Same, B: Same> Same for (A, B) {
    type Key = (A::Key, B::Key);

    ghost key = { λ x. (A.Same.key x.0, B.Same.key x.1) };

    ghost alike = { λ x y. A.Same.alike x.0 y.0 && B.Same.alike x.1 y.1 };

    ghost exact = { λ x y. both_exact (A.Same.alike x.0 y.0) (B.Same.alike x.1 y.1) (A.Same.exact x.0 y.0) (B.Same.exact x.1 y.1) };

    fn same(&self, other: &(A, B)) -> bool {
        self.0.same(&other.0) && self.1.same(&other.1)
    }
}
