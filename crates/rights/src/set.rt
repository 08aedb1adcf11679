// Sets of rights: a binary digit for each right, seen by nobody outside this file.
ghost use Rattle.std.specs.Prelude.{◌≡◌, ◌==◌};
ghost use Rattle.rights.specs.Limits.{max_rights};
ghost use Rattle.rights.specs.Sets.{has, add, remove, either, inside, below, nothing, lowest_right, leave_out};
ghost use Rattle.std.specs.Iterator.{at_most};

use crate::number::Right;
use std::marker::Model;

#[derive(Clone, Copy, PartialEq, Eq)]
pub struct RightSet {
    bits: u32,
}

impl Model for RightSet {
    ghost use Rattle.std.specs.Prelude.{ℕ};

    ghost Value = { ℕ };

    ghost view = { λ s. s.bits };

    ghost inverse = { λ n. record { bits = n } };
}

impl RightSet {
    pub fn empty() -> RightSet
        ensures { result ≡ nothing }
    {
        RightSet { bits: 0 }
    }

    // The rights below this one.
    pub fn below(right: Right) -> RightSet
        ensures { result ≡ below right }
    {
        RightSet {
            bits: (1 << right.number()) - 1,
        }
    }

    pub fn is_empty(self) -> bool
        ensures { result ≡ (self == nothing) }
    {
        self.bits == 0
    }

    pub fn contains(self, right: Right) -> bool
        ensures { result ≡ has self right }
    {
        (self.bits >> right.number()) & 1 == 1
    }

    pub fn with(self, right: Right) -> RightSet
        ensures { result ≡ add self right }
    {
        RightSet {
            bits: self.bits | (1 << right.number()),
        }
    }

    pub fn without(self, right: Right) -> RightSet
        ensures { result ≡ remove self right }
    {
        if self.contains(right) {
            RightSet {
                bits: self.bits ^ (1 << right.number()),
            }
        } else {
            self
        }
    }

    pub fn union(self, other: RightSet) -> RightSet
        ensures { result ≡ either self other }
    {
        RightSet {
            bits: self.bits | other.bits,
        }
    }

    // Is each right of this set in the other?
    pub fn is_within(self, other: RightSet) -> bool
        ensures { result ≡ inside self other }
    {
        self.bits & other.bits == self.bits
    }

    pub fn lowest(self) -> Option<Right>
        ensures { result ≡ lowest_right max_rights self }
    {
        if self.bits == 0 {
            return None;
        }
        let number = self.bits.trailing_zeros() as usize;
        Right::new(number).ok()
    }

    // The rights in order of number.
    pub fn members(self) -> Members
        ensures { result ≡ self }
    {
        Members { rest: self }
    }
}

// The rights of a set that are still to come, the lowest first.
#[derive(Drop)]
pub struct Members {
    rest: RightSet,
}

impl Model for Members {
    ghost use Rattle.std.specs.Prelude.{ℕ};

    ghost Value = { ℕ };

    ghost view = { λ m. m.rest };
}

impl Iterator for Members {
    type Item = Right;

    ghost next_gives = { λ s r t. (r ≡ lowest_right max_rights s) × (t ≡ leave_out s (lowest_right max_rights s)) };

    ghost remaining = { λ s. at_most s };

    fn next(&mut self) -> Option<Right> {
        let right = self.rest.lowest()?;
        self.rest = self.rest.without(right);
        Some(right)
    }
}
