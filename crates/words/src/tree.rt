// The form of a line, by places in the line's text.

// A word: its bytes begin at `from` and end before `upto`.
#[derive(Clone, Copy)]
pub struct Word {
    pub from: usize,
    pub upto: usize,
}

// One item of a list.
#[derive(Drop)]
pub enum Item {
    Word(Word),
    List(Items),
}

// The items of a list, from the left.
pub type Items = Vec<Item>;
