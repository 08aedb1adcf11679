// The search in one column of the table.
ghost use Rattle.std.specs.Prelude.{◌≡◌, ◌+◌, ◌<◌, ◌≤◌, length, take, IfSome};
ghost use Rattle.std.specs.Option.{option_map};
ghost use Rattle.rights.specs.Limits.{max_rights, max_subjects};
ghost use Rattle.safety.specs.Rule.{step_for as step_of, most_moves};
ghost use Rattle.safety.specs.Questions.{list_places};
ghost use Rattle.questions.specs.Fields.{attained, next_in, stepped, ahead, onward, if_found};
ghost use Rattle.questions.specs.Places.{field_in};
ghost use Rattle.questions.specs.Moves.{move_of};

use crate::asked::Asked;
use crate::run::{MAX_MOVES, Run};
use books::RuleBook;
use monitor::{Column, Step};
use rights::Right;
use std::marker::Model;

// A move that adds a right: the giver gives it to the receiver, or without a giver the receiver adds it for itself.
#[derive(Clone, Copy)]
struct Gain {
    giver: Option<usize>,
    receiver: usize,
    right: Right,
}

impl Gain {
    // The move as a step, for the object.
    fn step(self, object: usize) -> Step
        ensures { result ≡ step_of object (move_of self) }
    {
        let right = self.right.number();
        match self.giver {
            None => Step::Transform {
                subject: self.receiver,
                object,
                right,
            },
            Some(giver) => Step::Grant {
                giver,
                receiver: self.receiver,
                object,
                right,
            },
        }
    }
}

// A search for what is asked, in the column of an object. The cells are as far as the search has come.
#[derive(Drop)]
pub(crate) struct Search<'s, 'a, B: RuleBook> {
    asked: &'s Asked<'a, B>,
    object: usize,
    column: Column,
}

impl<'s, 'a, B: RuleBook> Model for Search<'s, 'a, B> {
    ghost use Rattle.std.specs.Prelude.{◌≡◌, length};
    ghost use Rattle.rights.specs.Limits.{max_subjects};
    ghost use Rattle.questions.specs.Fields.{Field};
    ghost use Rattle.questions.specs.Places.{field_in};

    ghost Value = { B × Field };

    ghost view = { λ s. (s.asked.now.book.now, field_in s.asked.now s.object s.column) };

    ghost invariant = { λ s. length s.column.cells ≡ max_subjects };
}

impl<'s, 'a, B: RuleBook> Search<'s, 'a, B> {
    pub(crate) fn new(asked: &'s Asked<'a, B>, object: usize, column: Column) -> Search<'s, 'a, B>
        ensures { result ≡ (asked.now.book.now, field_in asked.now object column) }
    {
        Search {
            asked,
            object,
            column,
        }
    }

    // Does the asked holding stand?
    pub(crate) fn holds(&self) -> bool
        ensures { result ≡ attained self.now.1 }
    {
        let asked = self.asked;
        let column = &self.column;
        column.cells[asked.subject].contains(asked.right)
    }

    // The first move that adds a right: receivers by number, for each one its transforms before the grants to it,
    // grants by the giver's number, then the lowest right.
    fn next_move(&self) -> Option<Gain>
        ensures first { option_map move_of result ≡ next_in max_rights (B.RuleBook.meaning self.now.0) self.now.1 }
        ensures stands { IfSome result (λ g. g.receiver < length self.now.1.types) }
    {
        let book = self.asked.book;
        let types = self.asked.table.subject_types();
        let column = &self.column;
        // Three nested loops, left by the label at the first move.
        'search: {
            for (receiver, &to) in types.iter().enumerate() {
                let held = column.cells[receiver];
                let own = book.may_add(to, column.kind, held);
                for right in own.members() {
                    if !held.contains(right) {
                        break 'search Some(Gain {
                            giver: None,
                            receiver,
                            right,
                        });
                    }
                }
                for (giver, &from) in types.iter().enumerate() {
                    let gift = book.may_give(from, to, column.kind, column.cells[giver]);
                    // Most gifts bring nothing new.
                    if giver == receiver || gift.is_within(held) {
                        continue;
                    }
                    for right in gift.members() {
                        if !held.contains(right) {
                            break 'search Some(Gain {
                                giver: Some(giver),
                                receiver,
                                right,
                            });
                        }
                    }
                }
            }
            None
        }
    }

    // The next move is taken, if there is one: the step that it is.
    pub(crate) fn step(&mut self) -> Option<Step>
        ensures taken { (self.new.1, result)
            ≡ stepped self.old.1 (next_in max_rights (B.RuleBook.meaning self.old.0) self.old.1) }
        ensures book { self.new.0 ≡ self.old.0 }
    {
        let gain = self.next_move()?;
        let column = &mut self.column;
        let held = column.cells[gain.receiver];
        column.cells[gain.receiver] = held.with(gain.right);
        Some(gain.step(self.object))
    }

    // Takes moves until the asked holding stands, and puts their steps behind those of the run. Does it come to stand?
    pub(crate) fn reach(&mut self, run: &mut Run) -> bool
        requires { length run.old + most_moves max_rights ≤ list_places max_rights }
        ensures { if_found result run.new
            ≡ onward run.old (ahead max_rights (B.RuleBook.meaning self.old.0) (most_moves max_rights) self.old.1) }
    {
        for _move in 0..MAX_MOVES {
            if self.holds() {
                return true;
            }
            let Some(step) = self.step() else {
                return false;
            };
            run.push(step);
        }
        self.holds()
    }
}
