// A draft of a row book.
use crate::count::Count;
use crate::table::RowTable;
use rights::kind::{ObjectTypeKind, RightKind, SubjectTypeKind};
use std::marker::Model;

// A draft takes declarations only, by number. Fixed, it becomes a book, which takes questions only.
#[derive(Drop)]
pub struct Draft {
    pub(crate) rights: Count<RightKind>,
    pub(crate) subject_types: Count<SubjectTypeKind>,
    pub(crate) object_types: Count<ObjectTypeKind>,
    pub(crate) table: RowTable,
}

// A contract speaks of a draft through its counts and lists, and leaves the memory open that they stand in.
impl Model for Draft {
    ghost use Rattle.rows.specs.Drafts.{Declared};

    ghost Value = { Declared };

    ghost view = { λ d. record { counts = record { rights = d.rights; subject_types = d.subject_types; object_types = d.object_types }; book = d.table } };
}
