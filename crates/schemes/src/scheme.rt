// A scheme: the names of its rights and types, each at its number, and its book.
use crate::names::AllNames;
use rows::RowBook;
use std::marker::Model;

// It takes questions only: for another scheme, start another draft.
#[derive(Drop)]
pub struct Scheme {
    pub(crate) names: AllNames,
    pub(crate) book: RowBook,
}

impl Model for Scheme {
    ghost use Rattle.meaning.specs.Named.{Named};

    ghost Value = { Named };

    ghost view = { λ s. record { names = s.names; book = s.book } };
}
