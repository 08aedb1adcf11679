// The declarations of a draft. Each takes any numbers, and is refused by the first test that fails: a number that is not
// declared (10), something declared already (8), an empty need (9), a limit (20). A refused one alters nothing.
ghost use Rattle.std.specs.Prelude.{◌≡◌, ◌≤◌, true, false, not, map, length, IfOk, Some, None, Ok};
ghost use Rattle.std.specs.Option.{option_map, option_transpose};
ghost use Rattle.rights.specs.Limits.{max_rights, max_subject_types, max_object_types, max_rows};
ghost use Rattle.rights.specs.Refusals.{checked, demand};
ghost use Rattle.rights.specs.declared.refusal.Refusal.TheVariants.{Repeated, OutOfRange};
ghost use Rattle.rows.specs.Lists.{twice, all_below, set_of};
ghost use Rattle.rows.specs.Room.{pair_number};
ghost use Rattle.rows.specs.Drafts.{nothing_declared, declare_right, declare_subject_type, declare_object_type, declare_owner, declare_creation, declare_row, receiver_declared};

use crate::book::RowBook;
use crate::count::Count;
use crate::draft::Draft;
use crate::row::{Creation, Row};
use crate::table::RowTable;
use rights::{Refusal, Right, RightSet, SubjectType};
use std::alloc::{AllocError, Global};

// The rights of a list as a set, unless one stands there twice.
fn set_from(numbers: &[usize]) -> Result<RightSet, Refusal>
    requires { all_below max_rights numbers.now ≡ true }
    ensures { result ≡ demand (not (twice numbers.now)) Repeated (Ok (set_of numbers.now)) }
{
    let mut all = RightSet::empty();
    for number in numbers {
        let right = Right::new(*number)?;
        if all.contains(right) {
            return Err(Refusal::Repeated);
        }
        all = all.with(right);
    }
    Ok(all)
}

impl Draft {
    pub fn new(heap: Global) -> Result<Draft, AllocError>
        ensures { IfOk result (λ d. d ≡ nothing_declared) }
    {
        Ok(Draft {
            rights: Count::none(),
            subject_types: Count::none(),
            object_types: Count::none(),
            table: RowTable::empty(heap)?,
        })
    }

    // One more right. The answer is its number.
    pub fn add_right(&mut self) -> Result<usize, Refusal>
        ensures value { (self.new, result) ≡ declare_right self.old }
        ensures few { self.new.counts.rights ≤ max_rights }
    {
        self.rights.add()
    }

    pub fn add_subject_type(&mut self) -> Result<usize, Refusal>
        ensures value { (self.new, result) ≡ declare_subject_type self.old }
        ensures few { self.new.counts.subject_types ≤ max_subject_types }
    {
        self.subject_types.add()
    }

    pub fn add_object_type(&mut self) -> Result<usize, Refusal>
        ensures value { (self.new, result) ≡ declare_object_type self.old }
        ensures few { self.new.counts.object_types ≤ max_object_types }
    {
        self.object_types.add()
    }

    // The right that marks an owner.
    pub fn set_owner(&mut self, right: usize) -> Result<(), Refusal>
        ensures { (self.new, result) ≡ declare_owner self.old right }
    {
        let right = self.rights.checked(right)?;
        self.table.set_owner(right)
    }

    // What a creator of this type gets for a new object of this type.
    #[tactic(auto, using(crate::proofs::Numbers::all_below_more))]
    pub fn add_creation(
        &mut self,
        creator: usize,
        object: usize,
        gets: &[usize],
    ) -> Result<(), Refusal>
        ensures { (self.new, result) ≡ declare_creation self.old creator object gets.now }
    {
        let by = self.subject_types.checked(creator)?;
        let on = self.object_types.checked(object)?;
        if !self.rights.covers(gets) {
            return Err(Refusal::OutOfRange);
        }
        let gets = set_from(gets)?;
        self.table.push_creation(Creation { by, on, gets })
    }

    // The receiver's type, if there is a receiver.
    fn receiver_type(&self, receiver: Option<usize>) -> Result<Option<SubjectType>, Refusal>
        ensures { result ≡ option_transpose (option_map (checked self.now.counts.subject_types) receiver) }
    {
        receiver
            .map(|number| self.subject_types.checked(number))
            .transpose()
    }

    #[tactic(auto, using(crate::proofs::Numbers::all_below_more))]
    fn add_row(
        &mut self,
        by: usize,
        receiver: Option<usize>,
        on: usize,
        need: &[usize],
        gives: &[usize],
    ) -> Result<(), Refusal>
        ensures { (self.new, result) ≡ declare_row self.old by receiver on need.now gives.now }
    {
        let by = self.subject_types.checked(by)?;
        let receiver = self.receiver_type(receiver)?;
        let on = self.object_types.checked(on)?;
        if !self.rights.covers(need) || !self.rights.covers(gives) {
            return Err(Refusal::OutOfRange);
        }
        let needed = set_from(need)?;
        let gives = set_from(gives)?;
        if need.is_empty() {
            return Err(Refusal::EmptyNeed);
        }
        self.table.push_row(Row {
            by,
            receiver,
            on,
            need: needed,
            gives,
        })
    }

    // A subject that holds all of `need` may add what is in `gives` for itself.
    pub fn add_transform(
        &mut self,
        subject: usize,
        object: usize,
        need: &[usize],
        gives: &[usize],
    ) -> Result<(), Refusal>
        ensures { (self.new, result) ≡ declare_row self.old subject None object need.now gives.now }
    {
        self.add_row(subject, None, object, need, gives)
    }

    // A giver that holds all of `need` may give what is in `gives` to another subject.
    pub fn add_grant(
        &mut self,
        giver: usize,
        receiver: usize,
        object: usize,
        need: &[usize],
        gives: &[usize],
    ) -> Result<(), Refusal>
        ensures { (self.new, result) ≡ declare_row self.old giver (Some receiver) object need.now gives.now }
    {
        self.add_row(giver, Some(receiver), object, need, gives)
    }

    // The draft as a book.
    pub fn fix(self) -> RowBook
        ensures value { result ≡ self.book }
        ensures few { length result.rules ≤ max_rows }
        ensures apart { twice (map pair_number result.creations) ≡ false }
    {
        let table = self.table;
        // What is known of every table, a proof knows of one that is looked into.
        let _ = &table.rows;
        RowBook { table }
    }
}
