// The forms layer: a list of items is read as a form of a scheme text, or refused as none.
#![tactic(auto)]

pub mod form;
mod head;
pub mod read;

pub use form::Form;
pub use read::{read_form, word_bytes};
