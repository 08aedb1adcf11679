// What a scheme tells.
ghost use Rattle.std.specs.Prelude.{◌≡◌, IfOk};
ghost use Rattle.meaning.specs.Named.{nothing_named};

use crate::names::AllNames;
use crate::scheme::Scheme;
use entries::Entry;
use rights::kind::{ObjectTypeKind, RightKind, SubjectTypeKind};
use rows::RowBook;
use std::alloc::{AllocError, Global};

impl Scheme {
    // The scheme without a name, which permits nothing.
    pub fn empty(heap: Global) -> Result<Scheme, AllocError>
        ensures { IfOk result (λ s. s ≡ nothing_named) }
    {
        Ok(Scheme {
            names: AllNames::none(heap),
            book: RowBook::empty(heap)?,
        })
    }

    // Takes every name and every row away.
    pub fn clear(&mut self)
        ensures { self.new ≡ nothing_named }
    {
        self.names.clear();
        self.book.clear();
    }

    pub fn book(&self) -> &RowBook
        ensures { result.now ≡ self.now.book }
    {
        &self.book
    }

    // The rights, each at its number.
    pub fn rights(&self) -> &[Entry<RightKind>]
        ensures { result.now ≡ self.now.names.rights }
    {
        self.names.rights.as_slice()
    }

    pub fn subject_types(&self) -> &[Entry<SubjectTypeKind>]
        ensures { result.now ≡ self.now.names.subject_types }
    {
        self.names.subject_types.as_slice()
    }

    pub fn object_types(&self) -> &[Entry<ObjectTypeKind>]
        ensures { result.now ≡ self.now.names.object_types }
    {
        self.names.object_types.as_slice()
    }
}
