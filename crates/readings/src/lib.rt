// Reading a scheme text: each line is a form, each form a declaration.
#![tactic(auto)]

pub mod declare;
pub mod failure;
pub mod read;

pub use failure::Failure;
pub use read::read_scheme;
