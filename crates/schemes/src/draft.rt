// A draft of a scheme: a draft of a row book, with the names of its rights and types.
use crate::names::AllNames;
use rows::Draft;
use std::marker::Model;

// As many of each kind are declared as have names. Fixed, the draft becomes a scheme.
#[derive(Drop)]
pub struct SchemeDraft {
    pub(crate) names: AllNames,
    pub(crate) draft: Draft,
}

impl Model for SchemeDraft {
    ghost use Rattle.std.specs.Prelude.{◌≡◌};
    ghost use Rattle.meaning.specs.Named.{Named, numbered};

    ghost Value = { Named };

    ghost view = { λ d. record { names = d.names; book = d.draft.book } };

    ghost invariant = { λ d. d.draft ≡ numbered (record { names = d.names; book = d.draft.book }) };
}
