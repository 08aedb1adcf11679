// What a question asks for.
ghost use Rattle.std.specs.Prelude.{◌≡◌, ◌<◌, ◌≤◌, true, length};
ghost use Rattle.rights.specs.Limits.{max_subjects};
ghost use Rattle.questions.specs.Standing.{stands_in};

use monitor::Table;
use rights::{ObjectType, Right};

// Where the asked holding is to come: in the column of an object of the table, or in that of a new object of this type.
#[derive(Clone, Copy)]
pub(crate) enum Place {
    Old(usize),
    New(ObjectType),
}

// Can the subject come to hold the right, from this table under this book?
#[derive(Drop)]
pub(crate) struct Asked<'a, B> {
    pub(crate) table: &'a Table,
    pub(crate) book: &'a B,
    pub(crate) subject: usize,
    pub(crate) right: Right,
    pub(crate) place: Place,
    ghost subject_stands: { subject < length table.now.subjects },
    ghost few_subjects: { length table.now.subjects ≤ max_subjects },
    ghost place_stands: { stands_in table.now place ≡ true },
}
