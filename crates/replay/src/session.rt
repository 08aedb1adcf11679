// The drafts, the book and the table that the calls are made on.
ghost use Rattle.std.specs.Prelude.{◌≡◌, ◌↔◌, min, length, take, replicate, All, IsTrue, IfOk, None, Err, OnOk};
ghost use Rattle.rights.specs.Limits.{max_rights};
ghost use Rattle.monitor.specs.declared.step.Step.TheVariants.{Create};
ghost use Rattle.safety.specs.Questions.{called};
ghost use Rattle.replay.specs.declared.fault.Fault.TheVariants.{Unreadable};
ghost use Rattle.replay.specs.Calls.{rules_in, built, declared_by, shown_length};

use crate::answer::{Answer, Holding, Told};
use crate::command::{Building, Command, Declaration};
use crate::fault::Fault;
use flags::CopyFlagBook;
use monitor::{Step, Table, TableDraft};
use questions::perform;
use rights::Refusal;
use rows::{Draft, RowBook};
use safety::{Call, Reply};
use std::alloc::{AllocError, Global};

// The current book.
#[derive(Drop)]
enum Book {
    Rows(RowBook),
    Flags(CopyFlagBook),
}

#[derive(Drop)]
pub struct Session {
    heap: Global,
    draft: Option<Draft>,
    book: Option<Book>,
    building: Option<TableDraft>,
    table: Option<Table>,
    // The run list that the calls are made with.
    run: Vec<Step>,
}

fn declare(draft: &mut Draft, declaration: Declaration) -> Result<Answer, Refusal>
    ensures { (draft.new, result) ≡ declared_by draft.old declaration }
{
    match declaration {
        Declaration::Right => return Ok(Answer::Number(draft.add_right()?)),
        Declaration::SubjectType => return Ok(Answer::Number(draft.add_subject_type()?)),
        Declaration::ObjectType => return Ok(Answer::Number(draft.add_object_type()?)),
        Declaration::Owner(right) => draft.set_owner(right)?,
        Declaration::Creation {
            creator,
            object,
            gets,
        } => draft.add_creation(creator, object, gets.as_slice())?,
        Declaration::Transform {
            subject,
            object,
            need,
            gives,
        } => draft.add_transform(subject, object, need.as_slice(), gives.as_slice())?,
        Declaration::Grant {
            giver,
            receiver,
            object,
            need,
            gives,
        } => draft.add_grant(giver, receiver, object, need.as_slice(), gives.as_slice())?,
    }
    Ok(Answer::Accepted)
}

fn build(draft: &mut TableDraft, building: Building) -> Result<Answer, Refusal>
    ensures { (draft.new, result) ≡ built draft.old building }
{
    match building {
        Building::Subject(kind) => Ok(Answer::Number(draft.add_subject(kind)?)),
        Building::Object(kind) => Ok(Answer::Number(draft.add_object(kind)?)),
        Building::Hold {
            subject,
            object,
            right,
        } => {
            draft.hold(subject, object, right)?;
            Ok(Answer::Accepted)
        }
    }
}

// The call under the current book.
fn make(table: &mut Table, book: &Book, call: Call, run: &mut [Step]) -> Reply
    ensures { (table.new, run.new, result) ≡ called max_rights (rules_in book.now) table.old call run.old }
{
    match book {
        Book::Rows(rows) => perform(table, rows, call, run),
        Book::Flags(flags) => perform(table, flags, call, run),
    }
}

// What stands in each place of the run list before a call.
const MARKER: Step = Step::Create {
    subject: 7,
    kind: 7,
};

// The list gets so many places, with the marker in each.
fn refill(list: &mut Vec<Step>, places: usize) -> Result<(), AllocError>
    ensures { OnOk result (list.new.items ≡ replicate places (Create 7 7)) }
{
    list.clear();
    list.resize(places, MARKER)?;
    Ok(())
}

// How many steps the shown run has.
fn shown_length(reply: Reply) -> usize
    ensures { result ≡ shown_length reply }
{
    match reply {
        Reply::Can(count) => count,
        _ => 0,
    }
}

// Does each of these places hold the marker?
fn all_marked(places: &[Step]) -> bool
    ensures { IsTrue result ↔ All (λ s. s ≡ Create 7 7) places.now }
{
    places.iter().all(|step| *step == MARKER)
}

// The reply with what the call left in the run list: the shown run in the first places, and the marker in the others.
fn tell(heap: Global, reply: Reply, list: &[Step]) -> Result<Told, AllocError>
    ensures reply { IfOk result (λ t. t.reply ≡ reply) }
    ensures run { IfOk result (λ t. t.run.items ≡ take (min (shown_length reply) (length list.now)) list.now) }
{
    let (run, rest) = list.split_at(shown_length(reply).min(list.len()));
    Ok(Told {
        reply,
        run: run.to_vec(heap)?,
        touched: !all_marked(rest),
    })
}

// The cells that are not empty, by subject and then by object.
fn holdings(heap: Global, table: &Table) -> Result<Vec<Holding>, AllocError> {
    let mut all = Vec::new(heap);
    for subject in 0..table.subject_types().len() {
        for object in 0..table.objects() {
            let rights = table.cell(subject, object).unwrap();
            if !rights.is_empty() {
                all.push(Holding {
                    subject,
                    object,
                    rights,
                })?;
            }
        }
    }
    Ok(all)
}

impl Session {
    pub fn new(heap: Global) -> Session
        ensures drafts { (result.draft ≡ None) × (result.building ≡ None) }
        ensures current { (result.book ≡ None) × (result.table ≡ None) }
    {
        Session {
            heap,
            draft: None,
            book: None,
            building: None,
            table: None,
            run: Vec::new(heap),
        }
    }

    // Makes the call that the line names. An unreadable line alters nothing.
    pub fn answer(&mut self, line: &str) -> Result<Answer, Fault>
        ensures idle { result ≡ Err Unreadable → self.new ≡ self.old }
    {
        match Command::read(self.heap, line)? {
            Command::Book => self.new_book(),
            Command::Declare(declaration) => self.declare(declaration),
            Command::Fix => self.fix(),
            Command::Flags(settings) => {
                self.book = Some(Book::Flags(CopyFlagBook::new(settings)?));
                Ok(Answer::Accepted)
            }
            Command::Table => self.new_table(),
            Command::Build(building) => self.build(building),
            Command::Start => self.start(),
            Command::Make { call, places } => self.make(call, places),
            Command::Cell { subject, object } => self.cell(subject, object),
            Command::Dump => self.dump(),
        }
    }

    fn new_book(&mut self) -> Result<Answer, Fault>
        ensures same { (self.new.book ≡ self.old.book) × (self.new.building ≡ self.old.building) × (self.new.table ≡ self.old.table) }
        ensures idle { result ≡ Err Unreadable → self.new ≡ self.old }
    {
        self.draft = Some(Draft::new(self.heap)?);
        Ok(Answer::Accepted)
    }

    fn declare(&mut self, declaration: Declaration) -> Result<Answer, Fault>
        ensures same { (self.new.book ≡ self.old.book) × (self.new.building ≡ self.old.building) × (self.new.table ≡ self.old.table) }
        ensures idle { result ≡ Err Unreadable → self.new ≡ self.old }
    {
        let draft = self.draft.as_mut().ok_or(Fault::Unreadable)?;
        Ok(declare(draft, declaration)?)
    }

    // The draft is used up.
    fn fix(&mut self) -> Result<Answer, Fault>
        ensures used { self.new.draft ≡ None }
        ensures same { (self.new.building ≡ self.old.building) × (self.new.table ≡ self.old.table) }
        ensures idle { result ≡ Err Unreadable → self.new ≡ self.old }
    {
        let draft = self.draft.take().ok_or(Fault::Unreadable)?;
        self.book = Some(Book::Rows(draft.fix()));
        Ok(Answer::Accepted)
    }

    fn new_table(&mut self) -> Result<Answer, Fault>
        ensures same { (self.new.draft ≡ self.old.draft) × (self.new.book ≡ self.old.book) × (self.new.table ≡ self.old.table) }
        ensures idle { result ≡ Err Unreadable → self.new ≡ self.old }
    {
        self.building = Some(TableDraft::new(self.heap)?);
        Ok(Answer::Accepted)
    }

    fn build(&mut self, building: Building) -> Result<Answer, Fault>
        ensures same { (self.new.draft ≡ self.old.draft) × (self.new.book ≡ self.old.book) × (self.new.table ≡ self.old.table) }
        ensures idle { result ≡ Err Unreadable → self.new ≡ self.old }
    {
        let draft = self.building.as_mut().ok_or(Fault::Unreadable)?;
        Ok(build(draft, building)?)
    }

    // The draft is used up.
    fn start(&mut self) -> Result<Answer, Fault>
        ensures used { self.new.building ≡ None }
        ensures same { (self.new.draft ≡ self.old.draft) × (self.new.book ≡ self.old.book) }
        ensures idle { result ≡ Err Unreadable → self.new ≡ self.old }
    {
        let draft = self.building.take().ok_or(Fault::Unreadable)?;
        self.table = Some(draft.start());
        Ok(Answer::Accepted)
    }

    fn make(&mut self, call: Call, places: usize) -> Result<Answer, Fault>
        ensures same { (self.new.draft ≡ self.old.draft) × (self.new.book ≡ self.old.book) × (self.new.building ≡ self.old.building) }
        ensures idle { result ≡ Err Unreadable → self.new ≡ self.old }
    {
        let book = self.book.as_ref().ok_or(Fault::Unreadable)?;
        let table = self.table.as_mut().ok_or(Fault::Unreadable)?;
        refill(&mut self.run, places)?;
        let reply = make(table, book, call, self.run.as_mut_slice());
        Ok(Answer::Told(tell(self.heap, reply, self.run.as_slice())?))
    }

    fn cell(&self, subject: usize, object: usize) -> Result<Answer, Fault> {
        let table = self.table.as_ref().ok_or(Fault::Unreadable)?;
        Ok(Answer::Cell(table.cell(subject, object)?))
    }

    fn dump(&self) -> Result<Answer, Fault> {
        let table = self.table.as_ref().ok_or(Fault::Unreadable)?;
        Ok(Answer::Cells(holdings(self.heap, table)?))
    }
}
