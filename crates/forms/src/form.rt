// The forms of a scheme text, by places in their line.
pub use crate::head::Head;
use words::Word;

#[derive(Drop)]
pub enum Form {
    Right(Word),
    SubjectType(Word),
    ObjectType(Word),
    Owner(Word),
    Create {
        creator: Word,
        object: Word,
        gets: Vec<Word>,
    },
    Transform {
        subject: Word,
        object: Word,
        need: Vec<Word>,
        gives: Vec<Word>,
    },
    Grant {
        giver: Word,
        receiver: Word,
        object: Word,
        need: Vec<Word>,
        gives: Vec<Word>,
    },
    Note,
}
