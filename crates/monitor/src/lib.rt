// The table of rights and its monitor.
#![tactic(auto)]

pub mod cells;
pub mod column;
pub mod draft;
pub mod step;
pub mod table;

pub use column::Column;
pub use draft::TableDraft;
pub use step::{Done, Step};
pub use table::Table;
