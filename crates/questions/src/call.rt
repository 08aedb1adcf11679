// The calls that a program makes: the two questions, and one call for all six.
ghost use Rattle.std.specs.Prelude.{◌≡◌};
ghost use Rattle.rights.specs.Limits.{max_rights};
ghost use Rattle.safety.specs.declared.question.Question.TheVariants.{Can, CanNew};
ghost use Rattle.safety.specs.Questions.{asked, called};
ghost use Rattle.safety.specs.Laws.{Judged, ListsJudged, CallJudged};

use crate::asked::Asked;
use books::RuleBook;
use monitor::{Step, Table};
use safety::{Call, Question, Reply};

// The answer to either question.
fn answer<'a, B: RuleBook>(
    table: &'a Table,
    book: &'a B,
    question: Question,
    run: &mut [Step],
) -> Reply
    ensures rule { (run.new, result) ≡ asked max_rights (B.RuleBook.meaning book.now) table.now question run.old }
    ensures law { Judged max_rights (B.RuleBook.meaning book.now) table.now question run.old run.new result }
{
    // The law is that of a well-formed table, and a clause of this call says that the table is one.
    let _ = table.subject_types();
    match Asked::new(table, book, question) {
        Ok(asked) => asked.answer(run),
        Err(refusal) => Reply::Refused(refusal),
    }
}

// Can the subject ever hold the right for the object? A can puts the shown run into the first places of the run list.
pub fn can<B: RuleBook>(
    table: &Table,
    book: &B,
    subject: usize,
    object: usize,
    right: usize,
    run: &mut [Step],
) -> Reply
    ensures rule { (run.new, result)
        ≡ asked max_rights (B.RuleBook.meaning book.now) table.now (Can subject object right) run.old }
    ensures law { Judged max_rights (B.RuleBook.meaning book.now) table.now (Can subject object right)
        run.old run.new result }
{
    let question = Question::Can {
        subject,
        object,
        right,
    };
    answer(table, book, question, run)
}

// Can it ever hold the right for some object of this type that is not in the table yet?
pub fn can_new<B: RuleBook>(
    table: &Table,
    book: &B,
    subject: usize,
    kind: usize,
    right: usize,
    run: &mut [Step],
) -> Reply
    ensures rule { (run.new, result)
        ≡ asked max_rights (B.RuleBook.meaning book.now) table.now (CanNew subject kind right) run.old }
    ensures law { Judged max_rights (B.RuleBook.meaning book.now) table.now (CanNew subject kind right)
        run.old run.new result }
{
    let question = Question::CanNew {
        subject,
        kind,
        right,
    };
    answer(table, book, question, run)
}

// Any of the six calls. Beside the equation with the machine and the run rule stand the law of this call, and the law
// over all lists of calls from this table.
pub fn perform<B: RuleBook>(table: &mut Table, book: &B, call: Call, run: &mut [Step]) -> Reply
    ensures rule { (table.new, run.new, result)
        ≡ called max_rights (B.RuleBook.meaning book.now) table.old call run.old }
    ensures law { CallJudged max_rights (B.RuleBook.meaning book.now) table.old call run.old table.new run.new result }
    ensures lists { ListsJudged max_rights (B.RuleBook.meaning book.now) table.old }
{
    // As in `answer`.
    let _ = table.subject_types();
    match call {
        Call::Act(step) => Reply::from(table.perform(book, step)),
        Call::Ask(question) => answer(table, book, question, run),
    }
}
