// Named entries, and the one lookup that serves every kind of them.
#![tactic(auto)]

ghost use Rattle.std.specs.Prelude.{◌≡◌, not, map, length, nat_lt};
ghost use Rattle.entries.specs.Lookup.{place_of, LookupFinds};

pub mod entry;

pub use entry::{Entry, Keyed};
use rights::kind::Kind;

// The place of the first entry that has the name.
pub fn find<E: Keyed>(entries: &[E], name: &[u8]) -> Option<usize>
    ensures { result ≡ place_of name.now (map E.key_of entries.now) }
{
    entries.iter().position(|entry| entry.key() == name)
}

// Are there as many entries as there may be of their kind?
pub fn is_full<K: Kind>(entries: &[Entry<K>]) -> bool
    ensures { result ≡ not (nat_lt (length entries.now) K.LIMIT) }
{
    entries.len() >= K::LIMIT
}

// What the lookup finds.
pub fn lookup_finds()
    ensures { LookupFinds }
{}
