// Rule books: what a subject may add, give and create, and who counts as an owner.
#![tactic(auto)]

ghost use Rattle.std.specs.Prelude.{◌≡◌};
ghost use Rattle.books.specs.Meaning.{Meaning, Lawful};

use rights::{ObjectType, Right, RightSet, SubjectType};

// A rule book answers four questions by its meaning, for all types and every held set. It never refuses one, and no
// question alters it. Each implementation shows these answers and the law.
pub trait RuleBook {
    ghost meaning: { Self → Meaning };

    // What a subject of this type may add for itself by a transform, when it holds `held` for an object of this type.
    fn may_add(&self, subject: SubjectType, object: ObjectType, held: RightSet) -> RightSet
        ensures { result ≡ (meaning self.now).may_add subject object held };

    // What it may give to another subject, of the receiver's type.
    fn may_give(
        &self,
        giver: SubjectType,
        receiver: SubjectType,
        object: ObjectType,
        held: RightSet,
    ) -> RightSet
        ensures { result ≡ (meaning self.now).may_give giver receiver object held };

    // What a creator of this type gets for a new object of this type, or none where there is no creation.
    fn creation(&self, creator: SubjectType, object: ObjectType) -> Option<RightSet>
        ensures { result ≡ (meaning self.now).creation creator object };

    // The right that marks an owner, or none.
    fn owner(&self) -> Option<Right>
        ensures { result ≡ (meaning self.now).owner };

    ghost lawful: { (book : Self) → Lawful (meaning book) };
}
