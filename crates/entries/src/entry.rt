// An entry of some kind, with its name.
ghost use Rattle.std.specs.Prelude.{◌≡◌, ℕ, List};

use std::marker::{Model, PhantomData};

// What is found by a name.
pub trait Keyed: Sized {
    ghost key_of: { Self → List ℕ };

    fn key(&self) -> &[u8]
        ensures { result.now ≡ key_of self.now };
}

// Seen as the bytes of its name.
#[derive(Drop)]
pub struct Entry<K> {
    name: Vec<u8>,
    kind: PhantomData<K>,
}

impl<K> Model for Entry<K> {
    ghost use Rattle.std.specs.Prelude.{List, ℕ};

    ghost Value = { List ℕ };

    ghost view = { λ e. e.name.items };
}

impl<K> Entry<K> {
    pub fn new(name: Vec<u8>) -> Entry<K>
        ensures { result ≡ name.items }
    {
        Entry {
            name,
            kind: PhantomData,
        }
    }
}

impl<K> Keyed for Entry<K> {
    ghost key_of = { λ e. e };

    fn key(&self) -> &[u8] {
        self.name.as_slice()
    }
}
