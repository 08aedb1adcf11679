// The copy-flag book: a counted flag passes on the access and lower flags, and the unlimited flag all of them and itself.
ghost use Rattle.std.specs.Prelude.{◌≡◌, ◌<◌, ◌≤◌};
ghost use Rattle.rights.specs.Limits.{max_rights};
ghost use Rattle.flags.specs.Flags.{most_flags, admitted, flag_gives, counted_give, unlimited_gives, flags_give, fresh_right, flags_meaning};
ghost use Rattle.flags.specs.Passing.{flags_lawful};

use crate::settings::{FreshFlag, Settings};
use books::RuleBook;
use rights::{ObjectType, Refusal, Right, RightSet, SubjectType};
use std::marker::Model;

const ACCESS: usize = 0;

const UNLIMITED_FLAG: usize = 31;

// Between the access and the unlimited flag there is room for so many counted flags.
const MOST_FLAGS: usize = 30;

#[derive(Clone, Copy)]
pub struct CopyFlagBook {
    settings: Settings,
}

// A book is its settings, which have a counted flag and not too many.
impl Model for CopyFlagBook {
    ghost use Rattle.std.specs.Prelude.{◌≤◌};
    ghost use Rattle.flags.specs.declared.settings.Settings.{Settings};
    ghost use Rattle.flags.specs.Flags.{most_flags};

    ghost Value = { Settings };

    ghost view = { λ b. b.settings };

    ghost invariant = { λ b. (1 ≤ b.settings.flags) × (b.settings.flags ≤ most_flags) };

    ghost inverse = { λ s. record { settings = s } };
}

// The right of this number.
fn numbered(number: usize) -> Right
    requires { number < max_rights }
    ensures { result ≡ number }
{
    Right::new(number).unwrap()
}

// What a counted flag gives, if it is held.
fn flag_gives(flag: Right, held: RightSet) -> RightSet
    ensures { result ≡ flag_gives flag held }
{
    if held.contains(flag) {
        RightSet::below(flag)
    } else {
        RightSet::empty()
    }
}

impl CopyFlagBook {
    pub fn new(settings: Settings) -> Result<CopyFlagBook, Refusal>
        ensures { result ≡ admitted settings }
    {
        if settings.flags < 1 || settings.flags > MOST_FLAGS {
            return Err(Refusal::OutOfRange);
        }
        Ok(CopyFlagBook { settings })
    }

    // What the book is set to.
    pub fn settings(&self) -> Settings
        ensures value { result ≡ self.now }
        ensures some { 1 ≤ result.flags }
        ensures few { result.flags ≤ most_flags }
    {
        self.settings
    }

    // What the counted flags among the held rights give.
    #[tactic(auto, unfolding(crate::specs::Flags::counted_give))]
    fn counted_give(&self, held: RightSet) -> RightSet
        ensures { result ≡ counted_give self.now.flags held }
    {
        let mut gives = RightSet::empty();
        // A loop, since no lemma of the library says what a fold takes from `1..=n`.
        for k in 1..=self.settings.flags {
            gives = gives.union(flag_gives(numbered(k), held));
        }
        gives
    }

    // What the unlimited flag gives, if it is held.
    fn unlimited_gives(&self, held: RightSet) -> RightSet
        ensures { result ≡ unlimited_gives self.now.flags held }
    {
        let unlimited = numbered(UNLIMITED_FLAG);
        if held.contains(unlimited) {
            RightSet::below(numbered(self.settings.flags + 1)).with(unlimited)
        } else {
            RightSet::empty()
        }
    }

    // What all flags among the held rights give.
    fn flags_give(&self, held: RightSet) -> RightSet
        ensures { result ≡ flags_give self.now.flags held }
    {
        self.counted_give(held).union(self.unlimited_gives(held))
    }

    // The flag that a creator gets.
    fn fresh_right(&self) -> Right
        ensures { result ≡ fresh_right self.now }
    {
        match self.settings.fresh {
            FreshFlag::Counted => numbered(self.settings.flags),
            FreshFlag::Unlimited => numbered(UNLIMITED_FLAG),
        }
    }
}

impl RuleBook for CopyFlagBook {
    ghost meaning = { flags_meaning };

    ghost lawful = { flags_lawful };

    fn may_add(&self, _subject: SubjectType, object: ObjectType, held: RightSet) -> RightSet {
        let access = numbered(ACCESS);
        let served = self.settings.served[object.number()];
        if self.settings.strong && served && self.flags_give(held).contains(access) {
            RightSet::empty().with(access)
        } else {
            RightSet::empty()
        }
    }

    fn may_give(
        &self,
        giver: SubjectType,
        receiver: SubjectType,
        object: ObjectType,
        held: RightSet,
    ) -> RightSet {
        let gives = self.settings.givers[giver.number()];
        let receives = self.settings.receivers[receiver.number()];
        let served = self.settings.served[object.number()];
        if gives && receives && served {
            self.flags_give(held)
        } else {
            RightSet::empty()
        }
    }

    fn creation(&self, creator: SubjectType, object: ObjectType) -> Option<RightSet> {
        let creates = self.settings.creators[creator.number()];
        let served = self.settings.served[object.number()];
        if !creates || !served {
            return None;
        }
        Some(RightSet::empty().with(self.fresh_right()))
    }

    fn owner(&self) -> Option<Right> {
        None
    }
}
