// The class of a byte, read from a table.
#![tactic(auto)]

ghost use Rattle.std.specs.Prelude.{◌≡◌};
ghost use Rattle.grammar.specs.Bytes.{class};
ghost use Rattle.classes.specs.Sorts.{sort};

pub mod kinds;
mod table;

use kinds::ByteClass;
use table::CLASS;

pub fn class_of(b: u8) -> ByteClass
    ensures { sort result ≡ class b }
{
    CLASS[usize::from(b)]
}
