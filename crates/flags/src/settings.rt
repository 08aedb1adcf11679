// What a copy-flag book is set to.
use rights::limits::{MAX_OBJECT_TYPES, MAX_SUBJECT_TYPES};

// What a creator gets for its new object.
#[derive(Clone, Copy)]
pub enum FreshFlag {
    // The highest counted flag.
    Counted,
    // The unlimited flag.
    Unlimited,
}

// Each list of types says, by the number of a type, whether it is chosen.
#[derive(Clone, Copy)]
pub struct Settings {
    // How many counted flags there are: the rights 1 to this number.
    pub flags: usize,
    // The types of subjects that give, that receive, and that create.
    pub givers: [bool; MAX_SUBJECT_TYPES],
    pub receivers: [bool; MAX_SUBJECT_TYPES],
    pub creators: [bool; MAX_SUBJECT_TYPES],
    // The types of objects that the book serves.
    pub served: [bool; MAX_OBJECT_TYPES],
    // May whoever holds a flag add the access for itself?
    pub strong: bool,
    pub fresh: FreshFlag,
}
