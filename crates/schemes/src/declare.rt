// The declarations of a scheme. Each is refused by the first test that fails: a new name that is no word (2, 5 or else
// 3), a number that is not declared (10), something declared already (8), an empty need (9), a limit (20). A refused
// one, or one that finds no memory for a name, alters nothing.
ghost use Rattle.std.specs.Prelude.{◌≡◌, ◌≤◌, length, IfOk, Some, None};
ghost use Rattle.rights.specs.Limits.{max_rights, max_subject_types, max_object_types};
ghost use Rattle.rights.specs.Refusals.{settle};
ghost use Rattle.entries.specs.Lookup.{place_of};
ghost use Rattle.meaning.specs.Named.{nothing_named};
ghost use Rattle.meaning.specs.Declarations.{type_taken, right_named, subject_type_named, object_type_named, owner_set, creation_added, row_added};
ghost use Rattle.schemes.specs.Calls.{CarriedOut};

use crate::draft::SchemeDraft;
use crate::names::AllNames;
use crate::scheme::Scheme;
use rights::Refusal;
use rows::Draft;
use std::alloc::{AllocError, Global};
use words::Denial;

impl SchemeDraft {
    pub fn new(heap: Global) -> Result<SchemeDraft, AllocError>
        ensures { IfOk result (λ d. d ≡ nothing_named) }
    {
        Ok(SchemeDraft {
            names: AllNames::none(heap),
            draft: Draft::new(heap)?,
        })
    }

    // The number of the right with this name.
    pub fn right(&self, name: &[u8]) -> Option<usize>
        ensures { result ≡ place_of name.now self.now.names.rights }
    {
        self.names.rights.place(name)
    }

    pub fn subject_type(&self, name: &[u8]) -> Option<usize>
        ensures { result ≡ place_of name.now self.now.names.subject_types }
    {
        self.names.subject_types.place(name)
    }

    pub fn object_type(&self, name: &[u8]) -> Option<usize>
        ensures { result ≡ place_of name.now self.now.names.object_types }
    {
        self.names.object_types.place(name)
    }

    // Subject types and object types share one set of names.
    fn has_type(&self, name: &[u8]) -> bool
        ensures { result ≡ type_taken self.now name.now }
    {
        self.subject_type(name).is_some() || self.object_type(name).is_some()
    }

    // One more right under a name of its own. The answer is its number.
    pub fn add_right(&mut self, heap: Global, name: &[u8]) -> Result<usize, Denial>
        ensures value { CarriedOut (right_named self.old name.now) self.old self.new result }
        ensures few { length self.new.names.rights ≤ max_rights }
    {
        let taken = self.right(name).is_some();
        self.names.rights.enter(heap, taken, name)?;
        self.draft.add_right().map_err(Denial::Because)
    }

    pub fn add_subject_type(&mut self, heap: Global, name: &[u8]) -> Result<usize, Denial>
        ensures value { CarriedOut (subject_type_named self.old name.now) self.old self.new result }
        ensures few { length self.new.names.subject_types ≤ max_subject_types }
    {
        let taken = self.has_type(name);
        self.names.subject_types.enter(heap, taken, name)?;
        self.draft.add_subject_type().map_err(Denial::Because)
    }

    pub fn add_object_type(&mut self, heap: Global, name: &[u8]) -> Result<usize, Denial>
        ensures value { CarriedOut (object_type_named self.old name.now) self.old self.new result }
        ensures few { length self.new.names.object_types ≤ max_object_types }
    {
        let taken = self.has_type(name);
        self.names.object_types.enter(heap, taken, name)?;
        self.draft.add_object_type().map_err(Denial::Because)
    }

    // The right that marks an owner.
    pub fn set_owner(&mut self, right: usize) -> Result<(), Refusal>
        ensures { (self.new, result) ≡ settle self.old (owner_set self.old right) }
    {
        self.draft.set_owner(right)
    }

    // What a creator of this type gets for a new object of this type.
    pub fn add_creation(
        &mut self,
        creator: usize,
        object: usize,
        gets: &[usize],
    ) -> Result<(), Refusal>
        ensures { (self.new, result) ≡ settle self.old (creation_added self.old creator object gets.now) }
    {
        self.draft.add_creation(creator, object, gets)
    }

    // A subject that holds all of `need` may add what is in `gives` for itself.
    pub fn add_transform(
        &mut self,
        subject: usize,
        object: usize,
        need: &[usize],
        gives: &[usize],
    ) -> Result<(), Refusal>
        ensures { (self.new, result) ≡ settle self.old (row_added self.old subject None object need.now gives.now) }
    {
        self.draft.add_transform(subject, object, need, gives)
    }

    // A giver that holds all of `need` may give what is in `gives` to another subject.
    pub fn add_grant(
        &mut self,
        giver: usize,
        receiver: usize,
        object: usize,
        need: &[usize],
        gives: &[usize],
    ) -> Result<(), Refusal>
        ensures { (self.new, result) ≡ settle self.old (row_added self.old giver (Some receiver) object need.now gives.now) }
    {
        self.draft.add_grant(giver, receiver, object, need, gives)
    }

    // The draft as a scheme.
    pub fn fix(self) -> Scheme
        ensures { result ≡ self }
    {
        Scheme {
            names: self.names,
            book: self.draft.fix(),
        }
    }
}
