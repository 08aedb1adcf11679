// The safety questions, answered by a search.
#![tactic(auto)]

mod ask;
mod asked;
mod call;
mod run;
mod search;

pub use call::{can, can_new, perform};
pub use run::RUN_PLACES;
