// A table being built.
ghost use Rattle.std.specs.Prelude.{◌≡◌, ◌≤◌, length, IfOk};
ghost use Rattle.rights.specs.Limits.{max_rights, max_subjects, max_objects};
ghost use Rattle.monitor.specs.States.{empty_table};
ghost use Rattle.monitor.specs.Machine.{build_subject, build_object, build_holding};

use crate::table::Table;
use rights::{ObjectType, Refusal, Right, SubjectType};
use std::alloc::{AllocError, Global};
use std::marker::Model;

// Takes subjects, objects and holdings, by number, and no step. Started, it becomes a table, which takes steps only.
#[derive(Drop)]
pub struct TableDraft {
    table: Table,
}

impl Model for TableDraft {
    ghost use Rattle.monitor.specs.States.{State};

    ghost Value = { State };

    ghost view = { λ d. d.table };
}

impl TableDraft {
    pub fn new(heap: Global) -> Result<TableDraft, AllocError>
        ensures { IfOk result (λ d. d ≡ empty_table) }
    {
        let table = Table::new(heap)?;
        Ok(TableDraft { table })
    }

    // One more subject, which holds nothing. The answer is its number.
    pub fn add_subject(&mut self, kind: usize) -> Result<usize, Refusal>
        ensures value { (self.new, result) ≡ build_subject self.old kind }
        ensures few { length self.new.subjects ≤ max_subjects }
    {
        // What is true of every table, a proof knows of one that is looked into.
        let _ = &self.table.subjects;
        let kind = SubjectType::new(kind)?;
        self.table.new_subject(kind)
    }

    // One more object, for which nobody holds anything. The answer is its number.
    pub fn add_object(&mut self, kind: usize) -> Result<usize, Refusal>
        ensures value { (self.new, result) ≡ build_object self.old kind }
        ensures few { length self.new.objects ≤ max_objects }
    {
        let _ = &self.table.columns;
        let kind = ObjectType::new(kind)?;
        self.table.new_object(kind)
    }

    // The subject holds the right for the object.
    pub fn hold(&mut self, subject: usize, object: usize, right: usize) -> Result<(), Refusal>
        ensures { (self.new, result) ≡ build_holding max_rights self.old subject object right }
    {
        let place = self.table.look(subject, object)?;
        let right = Right::new(right)?;
        self.table.put(subject, object, place.held.with(right));
        Ok(())
    }

    // The table as built.
    pub fn start(self) -> Table
        ensures { result ≡ self }
    {
        let TableDraft { table } = self;
        table
    }
}
