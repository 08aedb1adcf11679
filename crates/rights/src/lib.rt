// Sets of rights, the checked numbers of rights and types, the limits, and the refusals.
#![tactic(auto)]

ghost use Rattle.rights.specs.Sets.{SetLaws};

pub mod kind;
pub mod limits;
pub mod number;
pub mod refusal;
pub mod set;

pub use number::{Number, ObjectType, Right, SubjectType};
pub use refusal::Refusal;
pub use set::{Members, RightSet};

// What the operations on sets come to, over any width.
pub fn set_laws_stand()
    ensures { SetLaws }
{}
