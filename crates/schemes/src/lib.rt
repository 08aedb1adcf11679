// Schemes with names: a draft that takes declarations, fixed into a scheme that answers.
#![tactic(auto)]

pub mod declare;
pub mod draft;
pub mod names;
pub mod scheme;
pub mod view;

pub use draft::SchemeDraft;
pub use scheme::Scheme;
