// The fixed book: rows that answer questions.
ghost use Rattle.std.specs.Prelude.{◌≡◌, ◌≤◌, false, map, length, IfOk};
ghost use Rattle.rights.specs.Limits.{max_rows};
ghost use Rattle.rows.specs.Lists.{twice};
ghost use Rattle.rows.specs.Room.{pair_number};
ghost use Rattle.rows.specs.Rules.{gathered, book_meaning, empty_book};
ghost use Rattle.rows.specs.Gathering.{book_lawful};

use crate::draft::Draft;
use crate::row::Row;
use crate::table::RowTable;
use books::RuleBook;
use rights::{ObjectType, Right, RightSet, SubjectType};
use std::alloc::{AllocError, Global};
use std::marker::Model;

// A book of rows. It takes no declaration any more: for another book, start another draft.
#[derive(Drop)]
pub struct RowBook {
    pub(crate) table: RowTable,
}

impl Model for RowBook {
    ghost use Rattle.rows.specs.Rules.{Book};

    ghost Value = { Book };

    ghost view = { λ b. b.table };
}

impl RowBook {
    // The book without a row: it permits nothing.
    pub fn empty(heap: Global) -> Result<RowBook, AllocError>
        ensures { IfOk result (λ b. b ≡ empty_book) }
    {
        Ok(Draft::new(heap)?.fix())
    }

    // Takes every row away, and what it marks as an owner: the book then permits nothing. The room stays.
    pub fn clear(&mut self)
        ensures { self.new ≡ empty_book }
    {
        self.table.clear();
    }

    // How many rows it has. What is true of every book is said here: it has no more than there may be, and no pair of
    // types has two creations.
    pub fn rows(&self) -> usize
        ensures value { result ≡ length self.now.rules }
        ensures few { result ≤ max_rows }
        ensures apart { twice (map pair_number self.now.creations) ≡ false }
    {
        self.table.rows.len()
    }
}

// The union of what all the rows give that apply.
fn gather(
    rows: &[Row],
    by: SubjectType,
    receiver: Option<SubjectType>,
    on: ObjectType,
    held: RightSet,
) -> RightSet
    ensures { result ≡ gathered by receiver on held rows.now }
{
    rows.iter().fold(RightSet::empty(), |all, row| {
        all.union(row.given(by, receiver, on, held))
    })
}

impl RuleBook for RowBook {
    ghost meaning = { book_meaning };

    ghost lawful = { book_lawful };

    fn may_add(&self, subject: SubjectType, object: ObjectType, held: RightSet) -> RightSet {
        gather(&self.table.rows, subject, None, object, held)
    }

    fn may_give(
        &self,
        giver: SubjectType,
        receiver: SubjectType,
        object: ObjectType,
        held: RightSet,
    ) -> RightSet {
        gather(&self.table.rows, giver, Some(receiver), object, held)
    }

    fn creation(&self, creator: SubjectType, object: ObjectType) -> Option<RightSet> {
        self.table.creation(creator, object)
    }

    fn owner(&self) -> Option<Right> {
        self.table.owner
    }
}
