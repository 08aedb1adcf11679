// The table, and the monitor that performs or refuses steps on it.
ghost use Rattle.std.specs.Prelude.{◌≡◌, IfOk, ◌≤◌, true, length, Ok};
ghost use Rattle.rights.specs.Limits.{max_rights, max_subjects, max_objects};
ghost use Rattle.rights.specs.Refusals.{demand, on_ok};
ghost use Rattle.rights.specs.declared.refusal.Refusal.TheVariants.{OutOfRange};
ghost use Rattle.monitor.specs.declared.step.Step.TheVariants.{Create, Transform, Grant, Revoke};
ghost use Rattle.monitor.specs.States.{object as object_in, cell as cell_in, is_object, in_table, WellFormed};
ghost use Rattle.monitor.specs.Columns.{object_of};
ghost use Rattle.monitor.specs.Machine.{join as join_in, owns, perform as performed};
ghost use Rattle.monitor.specs.Laws.{Obeys};

use crate::column::Column;
use crate::step::{Done, Step};
use books::RuleBook;
use rights::{ObjectType, Refusal, Right, RightSet, SubjectType};
use std::marker::Model;

// A table of subjects, objects and cells: the type of each subject, and a column for each object. No subject is added
// any more, and no object is ever destroyed.
#[derive(Drop)]
pub struct Table {
    pub(crate) subjects: Vec<SubjectType>,
    pub(crate) columns: Vec<Column>,
}

impl Model for Table {
    ghost use Rattle.monitor.specs.States.{State};

    ghost Value = { State };

    ghost use Rattle.monitor.specs.Tables.{state_of, Sound};

    ghost view = { state_of };

    ghost invariant = { Sound };
}

// Does who holds this set own the object?
fn is_owner<B: RuleBook>(book: &B, held: RightSet) -> bool
    ensures { result ≡ owns (B.RuleBook.meaning book.now).owner held }
{
    book.owner().is_some_and(|mark| held.contains(mark))
}

impl Table {
    // What the subject holds for the object.
    pub fn cell(&self, subject: usize, object: usize) -> Result<RightSet, Refusal>
        ensures { result ≡ demand (in_table self.now subject object) OutOfRange (Ok (cell_in self.now subject object)) }
    {
        let place = self.look(subject, object)?;
        Ok(place.held)
    }

    // The types of the subjects, by number.
    pub fn subject_types(&self) -> &[SubjectType]
        ensures value { result.now ≡ self.now.subjects }
        ensures few { length result.now ≤ max_subjects }
        ensures well_formed { WellFormed self.now }
    {
        &self.subjects
    }

    // How many objects stand.
    pub fn objects(&self) -> usize
        ensures value { result ≡ length self.now.objects }
        ensures few { result ≤ max_objects }
    {
        self.columns.len()
    }

    // A copy of an object's column.
    pub fn column(&self, number: usize) -> Result<Column, Refusal>
        ensures value { on_ok (object_of (length self.now.subjects)) result
            ≡ demand (is_object self.now number) OutOfRange (Ok (object_in self.now number)) }
        ensures full { IfOk result (λ c. length c.cells ≡ max_subjects) }
    {
        self.columns.get(number).copied().ok_or(Refusal::OutOfRange)
    }

    // The right joins the cell.
    fn join(&mut self, subject: usize, object: usize, held: RightSet, right: Right) -> Done
        requires stands { in_table self.old subject object ≡ true }
        requires held { held ≡ cell_in self.old subject object }
        ensures { (self.new, result) ≡ join_in self.old subject object right }
    {
        self.put(subject, object, held.with(right));
        Done::Added(!held.contains(right))
    }

    // The subject adds the right to its own cell, if the book lets it.
    pub fn transform<B: RuleBook>(
        &mut self,
        book: &B,
        subject: usize,
        object: usize,
        right: usize,
    ) -> Result<Done, Refusal>
        ensures { (self.new, result)
            ≡ performed max_rights (B.RuleBook.meaning book.now) self.old (Transform subject object right) }
    {
        let place = self.look(subject, object)?;
        let right = Right::new(right)?;
        let addable = book.may_add(place.subject, place.object, place.held);
        if !addable.contains(right) {
            return Err(Refusal::NotPermitted);
        }
        Ok(self.join(subject, object, place.held, right))
    }

    // The giver puts the right into the receiver's cell, if the book lets it.
    pub fn grant<B: RuleBook>(
        &mut self,
        book: &B,
        giver: usize,
        receiver: usize,
        object: usize,
        right: usize,
    ) -> Result<Done, Refusal>
        ensures { (self.new, result)
            ≡ performed max_rights (B.RuleBook.meaning book.now) self.old (Grant giver receiver object right) }
    {
        let from = self.look(giver, object)?;
        let to = self.look(receiver, object)?;
        let right = Right::new(right)?;
        if giver == receiver {
            return Err(Refusal::SameSubject);
        }
        let givable = book.may_give(from.subject, to.subject, from.object, from.held);
        if !givable.contains(right) {
            return Err(Refusal::NotPermitted);
        }
        Ok(self.join(receiver, object, to.held, right))
    }

    // The owner takes the right from the loser's cell. The two may be one.
    pub fn revoke<B: RuleBook>(
        &mut self,
        book: &B,
        owner: usize,
        loser: usize,
        object: usize,
        right: usize,
    ) -> Result<Done, Refusal>
        ensures { (self.new, result)
            ≡ performed max_rights (B.RuleBook.meaning book.now) self.old (Revoke owner loser object right) }
    {
        let by = self.look(owner, object)?;
        let from = self.look(loser, object)?;
        let right = Right::new(right)?;
        if !is_owner(book, by.held) {
            return Err(Refusal::NotOwner);
        }
        if !from.held.contains(right) {
            return Err(Refusal::NotHeld);
        }
        self.put(loser, object, from.held.without(right));
        Ok(Done::Taken)
    }

    // The subject makes an object, if the book has a creation for their types.
    pub fn create<B: RuleBook>(
        &mut self,
        book: &B,
        subject: usize,
        kind: usize,
    ) -> Result<Done, Refusal>
        ensures { (self.new, result)
            ≡ performed max_rights (B.RuleBook.meaning book.now) self.old (Create subject kind) }
    {
        let creator = self.subject_type(subject)?;
        let kind = ObjectType::new(kind)?;
        let rights = book.creation(creator, kind).ok_or(Refusal::NotPermitted)?;
        let number = self.new_object(kind)?;
        self.put(subject, number, rights);
        Ok(Done::Made(number))
    }

    // The call for the step.
    fn dispatch<B: RuleBook>(&mut self, book: &B, step: Step) -> Result<Done, Refusal>
        ensures { (self.new, result) ≡ performed max_rights (B.RuleBook.meaning book.now) self.old step }
    {
        match step {
            Step::Create { subject, kind } => self.create(book, subject, kind),
            Step::Transform {
                subject,
                object,
                right,
            } => self.transform(book, subject, object, right),
            Step::Grant {
                giver,
                receiver,
                object,
                right,
            } => self.grant(book, giver, receiver, object, right),
            Step::Revoke {
                owner,
                loser,
                object,
                right,
            } => self.revoke(book, owner, loser, object, right),
        }
    }

    // Any step. Beside the equation with the machine stands the monitor's law in plain terms.
    pub fn perform<B: RuleBook>(&mut self, book: &B, step: Step) -> Result<Done, Refusal>
        ensures machine { (self.new, result) ≡ performed max_rights (B.RuleBook.meaning book.now) self.old step }
        ensures law { Obeys max_rights (B.RuleBook.meaning book.now) self.old step self.new result }
    {
        // The law is that of a well-formed table, and a table that is looked into is known to be one.
        let _ = &self.columns;
        self.dispatch(book, step)
    }
}
