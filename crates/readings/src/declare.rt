// What a form declares: its names are looked up from left to right, then the declaration is made by number.
ghost use Rattle.std.specs.Prelude.{◌≡◌};
ghost use Rattle.words.specs.Tree.{shape};
ghost use Rattle.meaning.specs.Forms.{create, itrans, grant};
ghost use Rattle.meaning.specs.Schemes.{at_place, found, all_found, meant, line_meant};
ghost use Rattle.forms.specs.Views.{name_at, names_at, form_at};
ghost use Rattle.readings.specs.Results.{Answered, DeclaredAs};

use forms::{Form, read_form, word_bytes};
use rights::Refusal;
use schemes::SchemeDraft;
use std::alloc::Global;
use words::{Denial, Item, Word};

// The number at which a name was found.
fn number(place: Option<usize>) -> Result<usize, Refusal>
    ensures { result ≡ at_place place }
{
    place.ok_or(Refusal::NoSuchName)
}

// A line of the text, and the heap for what is read of it.
#[derive(Drop)]
struct Line<'a> {
    heap: Global,
    bytes: &'a [u8],
}

impl Line<'_> {
    // The number of the right that this word names.
    fn right(&self, draft: &SchemeDraft, name: Word) -> Result<usize, Refusal>
        ensures { result ≡ found (name_at self.now.bytes.now name) draft.now.names.rights }
    {
        number(draft.right(word_bytes(self.bytes, name)))
    }

    fn subject_type(&self, draft: &SchemeDraft, name: Word) -> Result<usize, Refusal>
        ensures { result ≡ found (name_at self.now.bytes.now name) draft.now.names.subject_types }
    {
        number(draft.subject_type(word_bytes(self.bytes, name)))
    }

    fn object_type(&self, draft: &SchemeDraft, name: Word) -> Result<usize, Refusal>
        ensures { result ≡ found (name_at self.now.bytes.now name) draft.now.names.object_types }
    {
        number(draft.object_type(word_bytes(self.bytes, name)))
    }

    // The numbers of rights, from left to right.
    fn rights(&self, draft: &SchemeDraft, names: &[Word]) -> Result<Vec<usize>, Denial>
        ensures { Answered (λ v. v.items) (all_found (names_at self.now.bytes.now names.now) draft.now.names.rights) result }
    {
        let mut numbers = Vec::new(self.heap);
        for name in names {
            numbers.push(self.right(draft, *name)?)?;
        }
        Ok(numbers)
    }

    fn create(
        &self,
        draft: &mut SchemeDraft,
        creator: Word,
        object: Word,
        gets: &[Word],
    ) -> Result<(), Denial>
        ensures { DeclaredAs (meant draft.old (create (name_at self.now.bytes.now creator) (name_at self.now.bytes.now object) (names_at self.now.bytes.now gets.now))) draft.old draft.new result }
    {
        let by = self.subject_type(draft, creator)?;
        let on = self.object_type(draft, object)?;
        let gets = self.rights(draft, gets)?;
        draft.add_creation(by, on, &gets).map_err(Denial::Because)
    }

    fn transform(
        &self,
        draft: &mut SchemeDraft,
        subject: Word,
        object: Word,
        need: &[Word],
        gives: &[Word],
    ) -> Result<(), Denial>
        ensures { DeclaredAs (meant draft.old (itrans (name_at self.now.bytes.now subject) (name_at self.now.bytes.now object) (names_at self.now.bytes.now need.now) (names_at self.now.bytes.now gives.now))) draft.old draft.new result }
    {
        let by = self.subject_type(draft, subject)?;
        let on = self.object_type(draft, object)?;
        let need = self.rights(draft, need)?;
        let gives = self.rights(draft, gives)?;
        draft
            .add_transform(by, on, &need, &gives)
            .map_err(Denial::Because)
    }

    fn grant(
        &self,
        draft: &mut SchemeDraft,
        giver: Word,
        receiver: Word,
        object: Word,
        need: &[Word],
        gives: &[Word],
    ) -> Result<(), Denial>
        ensures { DeclaredAs (meant draft.old (grant (name_at self.now.bytes.now giver) (name_at self.now.bytes.now receiver) (name_at self.now.bytes.now object) (names_at self.now.bytes.now need.now) (names_at self.now.bytes.now gives.now))) draft.old draft.new result }
    {
        let by = self.subject_type(draft, giver)?;
        let to = self.subject_type(draft, receiver)?;
        let on = self.object_type(draft, object)?;
        let need = self.rights(draft, need)?;
        let gives = self.rights(draft, gives)?;
        draft
            .add_grant(by, to, on, &need, &gives)
            .map_err(Denial::Because)
    }

    // What a form declares.
    fn declare(&self, draft: &mut SchemeDraft, form: &Form) -> Result<(), Denial>
        ensures { DeclaredAs (meant draft.old (form_at self.now.bytes.now form.now)) draft.old draft.new result }
    {
        match form {
            Form::Right(name) => draft
                .add_right(self.heap, word_bytes(self.bytes, *name))
                .map(|_| ()),
            Form::SubjectType(name) => draft
                .add_subject_type(self.heap, word_bytes(self.bytes, *name))
                .map(|_| ()),
            Form::ObjectType(name) => draft
                .add_object_type(self.heap, word_bytes(self.bytes, *name))
                .map(|_| ()),
            Form::Owner(name) => {
                let right = self.right(draft, *name)?;
                draft.set_owner(right).map_err(Denial::Because)
            }
            Form::Create {
                creator,
                object,
                gets,
            } => self.create(draft, *creator, *object, gets),
            Form::Transform {
                subject,
                object,
                need,
                gives,
            } => self.transform(draft, *subject, *object, need, gives),
            Form::Grant {
                giver,
                receiver,
                object,
                need,
                gives,
            } => self.grant(draft, *giver, *receiver, *object, need, gives),
            Form::Note => Ok(()),
        }
    }
}

// What a good line declares.
pub fn declare_line(
    heap: Global,
    draft: &mut SchemeDraft,
    line: &[u8],
    items: &[Item],
) -> Result<(), Denial>
    ensures { DeclaredAs (line_meant draft.old (shape line.now items.now)) draft.old draft.new result }
{
    let form = read_form(heap, line, items)?;
    Line { heap, bytes: line }.declare(draft, &form)
}
