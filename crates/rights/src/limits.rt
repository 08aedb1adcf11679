// How many of each kind there may be. Each kind is numbered from 0.

pub const MAX_RIGHTS: usize = 32;

pub const MAX_SUBJECT_TYPES: usize = 16;

pub const MAX_OBJECT_TYPES: usize = 16;

// Transform and grant rows together.
pub const MAX_ROWS: usize = 256;

pub const MAX_SUBJECTS: usize = 64;

pub const MAX_OBJECTS: usize = 64;
