// Checked numbers: a value of this type is in range, so what takes one has nothing left to test.
ghost use Rattle.std.specs.Prelude.{◌≡◌, ◌<◌};
ghost use Rattle.rights.specs.Refusals.{checked};

use crate::kind::{Numbered, ObjectTypeKind, RightKind, SubjectTypeKind};
use crate::refusal::Refusal;
use std::marker::{Model, PhantomData};

// The number of one of a kind, below the limit of the kind.
#[derive_where(Clone, Copy, PartialEq, Eq)]
pub struct Number<K: Numbered> {
    number: u8,
    kind: PhantomData<K>,
}

// A right, 0 to 31.
pub type Right = Number<RightKind>;

// A type of subjects, 0 to 15.
pub type SubjectType = Number<SubjectTypeKind>;

// A type of objects, 0 to 15.
pub type ObjectType = Number<ObjectTypeKind>;

impl<K: Numbered> Model for Number<K> {
    ghost use Rattle.std.specs.Prelude.{ℕ, ◌<◌};

    ghost Value = { ℕ };

    ghost view = { λ n. n.number };

    ghost invariant = { λ n. n.number < K.LIMIT };

    ghost inverse = { λ n. record { number = n; kind = _ } };
}

impl<K: Numbered> Number<K> {
    pub fn new(number: usize) -> Result<Number<K>, Refusal>
        ensures { result ≡ checked K.LIMIT number }
    {
        if number >= K::LIMIT {
            return Err(Refusal::OutOfRange);
        }
        Ok(Number {
            number: number as u8,
            kind: PhantomData,
        })
    }

    pub fn number(self) -> usize
        ensures value { result ≡ self }
        ensures small { result < K.LIMIT }
    {
        usize::from(self.number)
    }
}
