// The reader of texts: one line at a time, its words by place.
#![tactic(auto)]

pub mod limits;
mod reader;
pub mod stop;
pub mod tree;
mod word;

pub use reader::line;
pub use stop::{At, Denial, Failed, Stop};
pub use tree::{Item, Items, Word};
pub use word::test_word;
