// Reading a form: its head, and then what follows it.
ghost use Rattle.std.specs.Prelude.{◌≡◌, ◌≢◌, ℕ, List, length, map, MatchResult};
ghost use Rattle.rights.specs.declared.refusal.Refusal.TheVariants.{WrongForm};
ghost use Rattle.words.specs.declared.stop.Failed.TheVariants.{Because};
ghost use Rattle.grammar.specs.Entries.{entries};
ghost use Rattle.words.specs.Tree.{shape, item_of};
ghost use Rattle.meaning.specs.Forms as forms;
ghost use Rattle.meaning.specs.Forms.{form_of, form_with, word_then, at_end, create_head, itrans_head, grant_head};
ghost use Rattle.forms.specs.Heads.{head_is};
ghost use Rattle.forms.specs.Views.{name_at, names_at, as_word, as_names, form_at, TakenAs};

use crate::form::Form;
use crate::head::Head;
use rights::Refusal;
use std::alloc::Global;
use words::{Denial, Item, Word};

// The bytes of a word of the line.
pub fn word_bytes<'a>(line: &'a [u8], word: Word) -> &'a [u8]
    ensures { result.now ≡ name_at line.now word }
{
    let upto = word.upto.min(line.len());
    let from = word.from.min(upto);
    &line[from..upto]
}

// An item that has to be a word.
fn word(item: &Item) -> Result<Word, Denial>
    ensures { (line : List ℕ) → TakenAs (name_at line) (as_word (item_of line item.now)) result }
{
    match item {
        Item::Word(word) => Ok(*word),
        Item::List(_) => Err(Denial::Because(Refusal::WrongForm)),
    }
}

// An item that has to be a list of words.
fn names(heap: Global, item: &Item) -> Result<Vec<Word>, Denial>
    ensures { (line : List ℕ) → TakenAs (λ ws. names_at line ws.items) (as_names (item_of line item.now)) result }
{
    let Item::List(items) = item else {
        return Err(Denial::Because(Refusal::WrongForm));
    };
    let mut words = Vec::new(heap);
    for item in items {
        words.push(word(item)?)?;
    }
    Ok(words)
}

// What follows a head, if it is as many items as this.
fn exactly<const N: usize>(rest: &[Item]) -> Result<&[Item; N], Denial>
    ensures { MatchResult result (λ items. rest.now ≡ items.now) (λ e. (length rest.now ≢ N) × (e ≡ Because WrongForm)) }
{
    rest.as_array().ok_or(Denial::Because(Refusal::WrongForm))
}

// One name, and nothing else.
fn only_name(rest: &[Item]) -> Result<Word, Denial>
    ensures { (line : List ℕ) (make : List ℕ → forms.Form) → TakenAs (λ w. make (name_at line w)) (word_then (map (item_of line) rest.now) (λ n. at_end (make n))) result }
{
    let [name] = exactly::<1>(rest)?;
    word(name)
}

fn create(heap: Global, rest: &[Item]) -> Result<Form, Denial>
    ensures { (line : List ℕ) → TakenAs (form_at line) (form_with create_head (map (item_of line) rest.now)) result }
{
    let [creator, object, gets] = exactly::<3>(rest)?;
    Ok(Form::Create {
        creator: word(creator)?,
        object: word(object)?,
        gets: names(heap, gets)?,
    })
}

fn transform(heap: Global, rest: &[Item]) -> Result<Form, Denial>
    ensures { (line : List ℕ) → TakenAs (form_at line) (form_with itrans_head (map (item_of line) rest.now)) result }
{
    let [subject, object, need, gives] = exactly::<4>(rest)?;
    Ok(Form::Transform {
        subject: word(subject)?,
        object: word(object)?,
        need: names(heap, need)?,
        gives: names(heap, gives)?,
    })
}

fn grant(heap: Global, rest: &[Item]) -> Result<Form, Denial>
    ensures { (line : List ℕ) → TakenAs (form_at line) (form_with grant_head (map (item_of line) rest.now)) result }
{
    let [giver, receiver, object, need, gives] = exactly::<5>(rest)?;
    Ok(Form::Grant {
        giver: word(giver)?,
        receiver: word(receiver)?,
        object: word(object)?,
        need: names(heap, need)?,
        gives: names(heap, gives)?,
    })
}

// What follows a head.
fn form_with(heap: Global, head: Head, rest: &[Item]) -> Result<Form, Denial>
    ensures { (line : List ℕ) → TakenAs (form_at line) (form_with (head_is head) (map (item_of line) rest.now)) result }
{
    match head {
        Head::Right => only_name(rest).map(Form::Right),
        Head::SubjectType => only_name(rest).map(Form::SubjectType),
        Head::ObjectType => only_name(rest).map(Form::ObjectType),
        Head::Owner => only_name(rest).map(Form::Owner),
        Head::Create => create(heap, rest),
        Head::Transform => transform(heap, rest),
        Head::Grant => grant(heap, rest),
        Head::Note => Ok(Form::Note),
    }
}

// The form that the items of a line are.
pub fn read_form(heap: Global, line: &[u8], items: &[Item]) -> Result<Form, Denial>
    ensures { TakenAs (form_at line.now) (form_of (entries (shape line.now items.now))) result }
{
    let [first, rest @ ..] = items else {
        return Err(Denial::Because(Refusal::WrongForm));
    };
    let head = Head::try_from(word_bytes(line, word(first)?))?;
    form_with(heap, head, rest)
}
