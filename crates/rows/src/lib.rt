// The row book: rules as rows, declared one by one in a draft, then fixed.
#![tactic(auto)]

ghost use Rattle.rows.specs.Rules.{RulesMean};

pub mod book;
mod count;
pub mod declare;
pub mod draft;
pub mod row;
pub mod table;

pub use book::RowBook;
pub use draft::Draft;

// A right is in the answer exactly when some row for those types, with its whole need held, gives it.
pub fn rules_mean()
    ensures { RulesMean }
{}
