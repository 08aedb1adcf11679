// The names of rights and types, each at its number.
ghost use Rattle.std.specs.Prelude.{◌≡◌, ◌≤◌, [], length};
ghost use Rattle.entries.specs.Lookup.{place_of};
ghost use Rattle.meaning.specs.Named.{nothing_named};
ghost use Rattle.schemes.specs.Calls.{CarriedOut, entered};

use entries::{Entry, find, is_full};
use rights::Refusal;
use rights::kind::{Kind, ObjectTypeKind, RightKind, SubjectTypeKind};
use std::alloc::Global;
use std::marker::Model;
use words::{Denial, test_word};

// The names of one kind, and never more than there may be.
#[derive(Drop)]
pub struct Names<K: Kind> {
    entries: Vec<Entry<K>>,
}

impl<K: Kind> Model for Names<K> {
    ghost use Rattle.std.specs.Prelude.{ℕ, ◌≤◌, List, vec_items, vec_len};

    ghost Value = { List (List ℕ) };

    ghost view = { λ n. vec_items n.entries };

    ghost invariant = { λ n. vec_len n.entries ≤ K.LIMIT };
}

impl<K: Kind> Names<K> {
    pub fn none(heap: Global) -> Names<K>
        ensures { result ≡ [] }
    {
        Names {
            entries: Vec::new(heap),
        }
    }

    // The number of this name.
    pub fn place(&self, name: &[u8]) -> Option<usize>
        ensures { result ≡ place_of name.now self.now }
    {
        find(&self.entries, name)
    }

    // One more name, which has to be a word and not taken, unless there are as many as there may be.
    pub fn enter(&mut self, heap: Global, taken: bool, name: &[u8]) -> Result<(), Denial>
        ensures value { CarriedOut (entered self.old taken name.now K.LIMIT) self.old self.new result }
        ensures few { length self.new ≤ K.LIMIT }
    {
        // What is true of every list of names, a proof knows of one that is looked into.
        let _ = &self.entries;
        test_word(name)?;
        if taken {
            return Err(Denial::Because(Refusal::Repeated));
        }
        if is_full(&self.entries) {
            return Err(Denial::Because(Refusal::LimitReached));
        }
        let bytes = Vec::from_slice(heap, name)?;
        self.entries.push(Entry::new(bytes))?;
        Ok(())
    }

    pub fn clear(&mut self)
        ensures { self.new ≡ [] }
    {
        self.entries.clear();
    }

    pub fn as_slice(&self) -> &[Entry<K>]
        ensures { result.now ≡ self.now }
    {
        self.entries.as_slice()
    }
}

// The names of every kind.
#[derive(Drop)]
pub(crate) struct AllNames {
    pub(crate) rights: Names<RightKind>,
    pub(crate) subject_types: Names<SubjectTypeKind>,
    pub(crate) object_types: Names<ObjectTypeKind>,
}

impl Model for AllNames {
    ghost use Rattle.meaning.specs.Named as named;

    ghost Value = { named.Names };

    ghost view = { λ n. record { rights = n.rights; subject_types = n.subject_types; object_types = n.object_types } };
}

impl AllNames {
    pub(crate) fn none(heap: Global) -> AllNames
        ensures { result ≡ nothing_named.names }
    {
        AllNames {
            rights: Names::none(heap),
            subject_types: Names::none(heap),
            object_types: Names::none(heap),
        }
    }

    pub(crate) fn clear(&mut self)
        ensures { self.new ≡ nothing_named.names }
    {
        self.rights.clear();
        self.subject_types.clear();
        self.object_types.clear();
    }
}
