// How long a word, how deep a list and how long a text may be.

// Bytes of a word.
pub const MAX_WORD: usize = 24;
// Lists inside one another, the form itself included.
pub const MAX_DEPTH: usize = 8;
// Bytes of a text.
pub const MAX_TEXT: usize = 4_194_304;
