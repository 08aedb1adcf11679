// The copy-flag book, a rule book that is computed from a few settings and has no rows.
#![tactic(auto)]

ghost use Rattle.flags.specs.Flags.{FlagsMean};

pub mod book;
pub mod settings;

pub use book::CopyFlagBook;
pub use settings::{FreshFlag, Settings};

// What may be given and added, said by the flags that are held.
pub fn flags_mean()
    ensures { FlagsMean }
{}
