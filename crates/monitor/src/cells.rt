// Reading and writing the memory of a table.
ghost use Rattle.std.specs.Prelude.{◌≡◌, ◌<◌, ◌≤◌, true, length, IfOk, Ok};
ghost use Rattle.rights.specs.Limits.{max_subjects, max_objects};
ghost use Rattle.rights.specs.Refusals.{demand, settle};
ghost use Rattle.rights.specs.declared.refusal.Refusal.TheVariants.{OutOfRange};
ghost use Rattle.monitor.specs.States.{empty_table, is_subject, type_of, in_table, with_subject, with_object, with_cell};
ghost use Rattle.monitor.specs.Machine.{more_subjects, more_objects};
ghost use Rattle.monitor.specs.Places.{place_in};

use crate::column::Column;
use crate::table::Table;
use rights::limits::{MAX_OBJECTS, MAX_SUBJECTS};
use rights::{ObjectType, Refusal, RightSet, SubjectType};
use std::alloc::{AllocError, Global};

// A subject's type, an object's type, and what the subject holds for the object.
#[derive(Clone, Copy)]
pub(crate) struct Place {
    pub(crate) subject: SubjectType,
    pub(crate) object: ObjectType,
    pub(crate) held: RightSet,
}

impl Table {
    pub(crate) fn new(heap: Global) -> Result<Table, AllocError>
        ensures { IfOk result (λ t. t ≡ empty_table) }
    {
        let subjects = Vec::with_capacity(heap, MAX_SUBJECTS)?;
        let columns = Vec::with_capacity(heap, MAX_OBJECTS)?;
        Ok(Table { subjects, columns })
    }

    pub(crate) fn put(&mut self, s: usize, o: usize, rights: RightSet)
        requires { in_table self.old s o ≡ true }
        ensures { self.new ≡ with_cell self.old s o rights }
    {
        self.columns[o].cells[s] = rights;
    }

    // One more object, for which nobody holds anything: its number, unless there are as many as there may be.
    pub(crate) fn new_object(&mut self, kind: ObjectType) -> Result<usize, Refusal>
        ensures value { (self.new, result) ≡ settle self.old (more_objects self.old kind) }
        ensures few { length self.new.objects ≤ max_objects }
    {
        let number = self.columns.len();
        if number >= MAX_OBJECTS {
            return Err(Refusal::LimitReached);
        }
        self.push_object(kind);
        Ok(number)
    }

    fn push_object(&mut self, kind: ObjectType)
        requires { length self.old.objects < max_objects }
        ensures { self.new ≡ with_object self.old kind }
    {
        let cells = [RightSet::empty(); MAX_SUBJECTS];
        self.columns.push_reserved(Column { kind, cells });
    }

    // One more subject, which holds nothing: its number, unless there are as many as there may be.
    pub(crate) fn new_subject(&mut self, kind: SubjectType) -> Result<usize, Refusal>
        ensures value { (self.new, result) ≡ settle self.old (more_subjects self.old kind) }
        ensures few { length self.new.subjects ≤ max_subjects }
    {
        let number = self.subjects.len();
        if number >= MAX_SUBJECTS {
            return Err(Refusal::LimitReached);
        }
        self.push_subject(kind);
        Ok(number)
    }

    fn push_subject(&mut self, kind: SubjectType)
        requires { length self.old.subjects < max_subjects }
        ensures { self.new ≡ with_subject self.old kind }
    {
        self.subjects.push_reserved(kind);
    }

    pub(crate) fn subject_type(&self, s: usize) -> Result<SubjectType, Refusal>
        ensures { result ≡ demand (is_subject self.now s) OutOfRange (Ok (type_of self.now s)) }
    {
        self.subjects.get(s).copied().ok_or(Refusal::OutOfRange)
    }

    // Where the subject and the object stand in the table, their types and the cell.
    pub(crate) fn look(&self, s: usize, o: usize) -> Result<Place, Refusal>
        ensures { result ≡ demand (in_table self.now s o) OutOfRange (Ok (place_in self.now s o)) }
    {
        let subject = self.subject_type(s)?;
        let column = self.columns.get(o).ok_or(Refusal::OutOfRange)?;
        Ok(Place {
            subject,
            object: column.kind,
            held: column.cells[s],
        })
    }
}
