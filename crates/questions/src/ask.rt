// The two questions.
ghost use Rattle.std.specs.Prelude.{◌≡◌, ℕ, ◌<◌, ◌≤◌, true, [], length, Ok, cond, nat_le};
ghost use Rattle.rights.specs.Limits.{max_rights, max_subjects, max_objects};
ghost use Rattle.rights.specs.Refusals.{demand, on_ok};
ghost use Rattle.rights.specs.declared.refusal.Refusal.TheVariants.{OutOfRange, TooShort};
ghost use Rattle.monitor.specs.Columns.{object_of};
ghost use Rattle.safety.specs.declared.question.Question.TheVariants.{CanNew};
ghost use Rattle.safety.specs.declared.question.Reply.TheVariants.{Refused};
ghost use Rattle.safety.specs.Rule.{fresh, shown};
ghost use Rattle.safety.specs.Questions.{in_range, list_places, told};
ghost use Rattle.questions.specs.Fields.{if_found};
ghost use Rattle.questions.specs.Places.{run_of};
ghost use Rattle.questions.specs.Standing.{room_in};

use crate::asked::{Asked, Place};
use crate::run::{RUN_PLACES, Run};
use crate::search::Search;
use books::RuleBook;
use monitor::{Column, Step, Table};
use rights::limits::{MAX_OBJECTS, MAX_SUBJECTS};
use rights::{ObjectType, Refusal, Right, RightSet};
use safety::{Question, Reply};

impl<'a, B: RuleBook> Asked<'a, B> {
    pub(crate) fn new(
        table: &'a Table,
        book: &'a B,
        question: Question,
    ) -> Result<Asked<'a, B>, Refusal>
        ensures { on_ok (λ a. run_of max_rights (B.RuleBook.meaning a.book.now) a) result
            ≡ demand (in_range max_rights table.now question) OutOfRange
            (Ok (shown max_rights (B.RuleBook.meaning book.now) table.now question)) }
    {
        let (Question::Can { subject, right, .. } | Question::CanNew { subject, right, .. }) =
            question;
        if subject >= table.subject_types().len() {
            return Err(Refusal::OutOfRange);
        }
        let right = Right::new(right)?;
        let place = match question {
            Question::Can { object, .. } if object < table.objects() => Place::Old(object),
            Question::Can { .. } => return Err(Refusal::OutOfRange),
            Question::CanNew { kind, .. } => Place::New(ObjectType::new(kind)?),
        };
        Ok(Asked {
            table,
            book,
            subject,
            right,
            place,
        })
    }

    // Is there room for the object? One that stands has its place.
    fn has_room(&self) -> bool
        ensures { result ≡ room_in self.now.table.now self.now.place }
    {
        match self.place {
            Place::Old(_) => true,
            Place::New(_) => self.table.objects() < MAX_OBJECTS,
        }
    }

    // The run for a new object: a create by the first creator whose object serves, and the steps behind it.
    fn find_new(&self, kind: ObjectType, run: &mut Run) -> bool
        requires { length self.now.table.now.objects < max_objects }
        ensures { if_found result run.new
            ≡ shown max_rights (B.RuleBook.meaning self.now.book.now) self.now.table.now
            (CanNew self.now.subject kind self.now.right) }
    {
        let object = self.table.objects();
        for (creator, own) in self.table.subject_types().iter().enumerate() {
            let Some(rights) = self.book.creation(*own, kind) else {
                continue;
            };
            run.clear();
            run.push(Step::Create {
                subject: creator,
                kind: kind.number(),
            });
            let column = fresh_column(creator, kind, rights);
            if Search::new(self, object, column).reach(run) {
                return true;
            }
        }
        false
    }

    // The run that an answer shows, if there is one.
    // A run is lent and not returned: returned by value, its 80 KB made a short can seven times slower.
    fn find(&self, run: &mut Run) -> bool
        requires room { room_in self.now.table.now self.now.place ≡ true }
        requires empty { run.old ≡ [] }
        ensures { if_found result run.new ≡ run_of max_rights (B.RuleBook.meaning self.now.book.now) self.now }
    {
        match self.place {
            Place::Old(object) => {
                let column = self.table.column(object).unwrap();
                Search::new(self, object, column).reach(run)
            }
            Place::New(kind) => self.find_new(kind, run),
        }
    }

    // The answer by a search. It stands out of line, so that only a search pays for a run: a function pays for the size
    // of its locals as soon as it is entered.
    #[inline(never)]
    fn look(&self, list: &mut [Step]) -> Reply
        requires room { room_in self.now.table.now self.now.place ≡ true }
        requires long { list_places max_rights ≤ length list.old }
        ensures { (list.new, result)
            ≡ told list.old (run_of max_rights (B.RuleBook.meaning self.now.book.now) self.now) }
    {
        let mut run = Run::new();
        if self.find(&mut run) {
            run.tell(list)
        } else {
            Reply::Never
        }
    }

    // The answer. A can puts the run into the first places of the list.
    pub(crate) fn answer(&self, list: &mut [Step]) -> Reply
        ensures { (list.new, result)
            ≡ cond (nat_le (list_places max_rights) (length list.old))
            (told list.old (run_of max_rights (B.RuleBook.meaning self.now.book.now) self.now))
            (list.old, Refused TooShort) }
    {
        if list.len() < RUN_PLACES {
            return Reply::Refused(Refusal::TooShort);
        }
        // A full table is answered before a run is made, which costs more than this whole answer.
        if !self.has_room() {
            return Reply::Never;
        }
        self.look(list)
    }
}

// The column of a new object: empty but for the creator's cell.
fn fresh_column(creator: usize, kind: ObjectType, rights: RightSet) -> Column
    requires { creator < max_subjects }
    ensures { (n : ℕ) → creator < n → n ≤ max_subjects
        → object_of n result ≡ record { type = kind; cells = fresh n creator rights } }
{
    let mut cells = [RightSet::empty(); MAX_SUBJECTS];
    cells[creator] = rights;
    Column { kind, cells }
}
