// The rows and creations of a book, in the order of declaration.
ghost use Rattle.std.specs.Prelude.{◌≡◌, length, not, is_some, Ok, IfOk, nat_lt};
ghost use Rattle.rights.specs.Limits.{max_rows};
ghost use Rattle.rights.specs.Refusals.{demand, settle};
ghost use Rattle.rights.specs.declared.refusal.Refusal.TheVariants.{Repeated, LimitReached};
ghost use Rattle.rows.specs.Rules.{created, empty_book, more_rules, more_creations, marked};

use crate::row::{Creation, Row};
use rights::limits::{MAX_OBJECT_TYPES, MAX_ROWS, MAX_SUBJECT_TYPES};
use rights::{ObjectType, Refusal, Right, RightSet, SubjectType};
use std::alloc::{AllocError, Global};
use std::marker::Model;

// Room for as many as there may be is kept from the start, so no declaration can want memory. No pair of types has two
// creations, so there are never more creations than pairs.
#[derive(Drop)]
pub struct RowTable {
    pub(crate) rows: Vec<Row>,
    pub(crate) creations: Vec<Creation>,
    pub(crate) owner: Option<Right>,
}

impl Model for RowTable {
    ghost use Rattle.std.specs.Prelude.{vec_items, vec_capacity};
    ghost use Rattle.rows.specs.Rules.{Book};
    ghost use Rattle.rows.specs.Room.{HasRoom};

    ghost Value = { Book };

    ghost view = { λ t. record { rules = vec_items t.rows; creations = vec_items t.creations; mark = t.owner } };

    ghost invariant = { λ t. HasRoom (vec_items t.rows) (vec_capacity t.rows) (vec_items t.creations) (vec_capacity t.creations) };
}

impl RowTable {
    pub(crate) fn empty(heap: Global) -> Result<RowTable, AllocError>
        ensures { IfOk result (λ t. t ≡ empty_book) }
    {
        let rows = Vec::with_capacity(heap, MAX_ROWS)?;
        let creations = Vec::with_capacity(heap, MAX_SUBJECT_TYPES * MAX_OBJECT_TYPES)?;
        Ok(RowTable {
            rows,
            creations,
            owner: None,
        })
    }

    // Takes away all that it has, and keeps the room.
    pub(crate) fn clear(&mut self)
        ensures { self.new ≡ empty_book }
    {
        self.rows.clear();
        self.creations.clear();
        self.owner = None;
    }

    // One more row, unless there are as many as there may be.
    pub(crate) fn push_row(&mut self, row: Row) -> Result<(), Refusal>
        ensures { (self.new, result) ≡ settle self.old (demand (nat_lt (length self.old.rules) max_rows) LimitReached (Ok (more_rules self.old row, tt))) }
    {
        if self.rows.len() >= MAX_ROWS {
            return Err(Refusal::LimitReached);
        }
        self.rows.push_reserved(row);
        Ok(())
    }

    // What the creation of the pair brings, if there is one.
    pub(crate) fn creation(&self, by: SubjectType, on: ObjectType) -> Option<RightSet>
        ensures { result ≡ created by on self.now.creations }
    {
        self.creations
            .iter()
            .find(|creation| creation.is_for(by, on))
            .map(|creation| creation.gets)
    }

    // One more creation, unless its pair has one. No more pairs are left than there is room.
    pub(crate) fn push_creation(&mut self, creation: Creation) -> Result<(), Refusal>
        ensures { (self.new, result) ≡ settle self.old (demand (not (is_some (created creation.by creation.on self.old.creations))) Repeated (Ok (more_creations self.old creation, tt))) }
    {
        if self.creation(creation.by, creation.on).is_some() {
            return Err(Refusal::Repeated);
        }
        self.creations.push_reserved(creation);
        Ok(())
    }

    // The right that marks an owner, unless there is one.
    pub(crate) fn set_owner(&mut self, right: Right) -> Result<(), Refusal>
        ensures { (self.new, result) ≡ settle self.old (demand (not (is_some self.old.mark)) Repeated (Ok (marked self.old right, tt))) }
    {
        if self.owner.is_some() {
            return Err(Refusal::Repeated);
        }
        self.owner = Some(right);
        Ok(())
    }
}
