// The words that begin a form.
ghost use Rattle.meaning.specs.Forms.{head_of};
ghost use Rattle.forms.specs.Heads.{HeadRead};

use rights::Refusal;

// What the first word of a form says of it.
#[derive(Clone, Copy, Debug, PartialEq, Eq)]
pub enum Head {
    Right,
    SubjectType,
    ObjectType,
    Owner,
    Create,
    Transform,
    Grant,
    Note,
}

impl TryFrom<&[u8]> for Head {
    type Error = Refusal;

    ghost try_from_gives = { λ word r. HeadRead (head_of word.now) r };

    fn try_from(word: &[u8]) -> Result<Head, Refusal> {
        match word {
            b"right" => Ok(Head::Right),
            b"subject-type" => Ok(Head::SubjectType),
            b"object-type" => Ok(Head::ObjectType),
            b"owner" => Ok(Head::Owner),
            b"create" => Ok(Head::Create),
            b"itrans" => Ok(Head::Transform),
            b"grant" => Ok(Head::Grant),
            b"note" => Ok(Head::Note),
            _ => Err(Refusal::WrongForm),
        }
    }
}
