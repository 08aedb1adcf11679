// The kinds of what is counted from 0, each with its own limit.
ghost use Rattle.std.specs.Prelude.{◌≡◌, ℕ, nat_le, true, refl};
ghost use Rattle.rights.specs.Limits.{max_rights, max_subject_types, max_object_types, max_subjects, max_objects};

use crate::limits::{MAX_OBJECT_TYPES, MAX_OBJECTS, MAX_RIGHTS, MAX_SUBJECT_TYPES, MAX_SUBJECTS};

// There are at most `LIMIT` of a kind.
pub trait Kind: Sized {
    const LIMIT: usize;

    ghost LIMIT: { ℕ };
}

// A byte holds each number of such a kind.
pub trait Numbered: Kind {
    ghost fits_a_byte: { nat_le Self.LIMIT 256 ≡ true };
}

#[derive(Clone, Copy)]
pub struct RightKind;

impl Kind for RightKind {
    const LIMIT: usize = MAX_RIGHTS;

    ghost LIMIT = { max_rights };
}

impl Numbered for RightKind {
    ghost fits_a_byte = { refl };
}

#[derive(Clone, Copy)]
pub struct SubjectTypeKind;

impl Kind for SubjectTypeKind {
    const LIMIT: usize = MAX_SUBJECT_TYPES;

    ghost LIMIT = { max_subject_types };
}

impl Numbered for SubjectTypeKind {
    ghost fits_a_byte = { refl };
}

#[derive(Clone, Copy)]
pub struct ObjectTypeKind;

impl Kind for ObjectTypeKind {
    const LIMIT: usize = MAX_OBJECT_TYPES;

    ghost LIMIT = { max_object_types };
}

impl Numbered for ObjectTypeKind {
    ghost fits_a_byte = { refl };
}

#[derive(Clone, Copy)]
pub struct SubjectKind;

impl Kind for SubjectKind {
    const LIMIT: usize = MAX_SUBJECTS;

    ghost LIMIT = { max_subjects };
}

impl Numbered for SubjectKind {
    ghost fits_a_byte = { refl };
}

#[derive(Clone, Copy)]
pub struct ObjectKind;

impl Kind for ObjectKind {
    const LIMIT: usize = MAX_OBJECTS;

    ghost LIMIT = { max_objects };
}

impl Numbered for ObjectKind {
    ghost fits_a_byte = { refl };
}
