// Rows of a rule book.
ghost use Rattle.std.specs.Prelude.{◌≡◌, cond};
ghost use Rattle.rights.specs.Sets.{nothing};
ghost use Rattle.rows.specs.Rules.{applies, is_pair};

use rights::{ObjectType, RightSet, SubjectType};
use std::marker::Model;

// A subject of type `by` that holds all of `need` for an object of type `on` may add what is in `gives` for itself (a
// transform: there is no receiver) or give it to another subject, of the receiver's type (a grant).
#[derive(Clone, Copy)]
pub struct Row {
    pub(crate) by: SubjectType,
    pub(crate) receiver: Option<SubjectType>,
    pub(crate) on: ObjectType,
    pub(crate) need: RightSet,
    pub(crate) gives: RightSet,
}

impl Model for Row {
    ghost use Rattle.rows.specs.Rules.{Rule};

    ghost Value = { Rule };

    ghost view = { λ r. record { by = r.by; receiver = r.receiver; on = r.on; need = r.need; gives = r.gives } };

    ghost inverse = { λ r. record { by = r.by; receiver = r.receiver; on = r.on; need = r.need; gives = r.gives } };
}

impl Row {
    // Is it a row for these types, and is its whole need held?
    pub(crate) fn applies(
        &self,
        by: SubjectType,
        receiver: Option<SubjectType>,
        on: ObjectType,
        held: RightSet,
    ) -> bool
        ensures { result ≡ applies by receiver on held self.now }
    {
        self.by == by && self.receiver == receiver && self.on == on && self.need.is_within(held)
    }

    // What it gives, if it applies.
    pub(crate) fn given(
        &self,
        by: SubjectType,
        receiver: Option<SubjectType>,
        on: ObjectType,
        held: RightSet,
    ) -> RightSet
        ensures { result ≡ cond (applies by receiver on held self.now) self.now.gives nothing }
    {
        if self.applies(by, receiver, on, held) {
            self.gives
        } else {
            RightSet::empty()
        }
    }
}

// A subject of type `by` may create an object of type `on`, and gets this set for it.
#[derive(Clone, Copy)]
pub struct Creation {
    pub(crate) by: SubjectType,
    pub(crate) on: ObjectType,
    pub(crate) gets: RightSet,
}

impl Model for Creation {
    ghost use Rattle.std.specs.Prelude.{◌<◌};
    ghost use Rattle.rights.specs.Limits.{max_subject_types, max_object_types};
    ghost use Rattle.rows.specs.Rules.{CreationRule};

    ghost Value = { CreationRule };

    ghost view = { λ c. record { by = c.by; on = c.on; gets = c.gets } };

    ghost invariant = { λ c. (c.by < max_subject_types) × (c.on < max_object_types) };

    ghost inverse = { λ c. record { by = c.by; on = c.on; gets = c.gets } };
}

impl Creation {
    pub(crate) fn is_for(&self, by: SubjectType, on: ObjectType) -> bool
        ensures { result ≡ is_pair by on self.now }
    {
        self.by == by && self.on == on
    }
}
