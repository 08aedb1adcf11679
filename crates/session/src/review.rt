// A paper review. An author owns the papers that it creates, and may have a checker see them; a checker who has seen a
// paper may give an author its ok; an author with own and ok may print.
use crate::names::Names;
use crate::walk::{Task, Watch, accepted};
use monitor::{Table, TableDraft};
use rights::Refusal;
use rows::{Draft, RowBook};
use safety::Question;
use std::alloc::Global;

const OWN: usize = 0;

const SEEN: usize = 1;

const OK: usize = 2;

const PRINT: usize = 3;

const AUTHOR: usize = 0;

const CHECKER: usize = 1;

const PAPER: usize = 0;

const ANN: usize = 0;

const BEN: usize = 1;

const CY: usize = 2;

const P1: usize = 0;

const P2: usize = 1;

fn declare(draft: &mut Draft) -> Result<(), Refusal> {
    for _ in 0..4 {
        draft.add_right()?;
    }
    draft.add_subject_type()?;
    draft.add_subject_type()?;
    draft.add_object_type()?;
    draft.set_owner(OWN)?;
    draft.add_creation(AUTHOR, PAPER, &[OWN])?;
    draft.add_grant(AUTHOR, CHECKER, PAPER, &[OWN], &[SEEN])?;
    draft.add_grant(CHECKER, AUTHOR, PAPER, &[SEEN], &[OK])?;
    draft.add_transform(AUTHOR, PAPER, &[OWN, OK], &[PRINT])
}

fn book(heap: Global) -> anyhow::Result<RowBook> {
    let mut draft = Draft::new(heap)?;
    accepted(declare(&mut draft))?;
    Ok(draft.fix())
}

fn build(draft: &mut TableDraft) -> Result<(), Refusal> {
    draft.add_subject(AUTHOR)?;
    draft.add_subject(CHECKER)?;
    draft.add_subject(AUTHOR)?;
    draft.add_object(PAPER)?;
    draft.hold(ANN, P1, OWN)
}

fn table(heap: Global) -> anyhow::Result<Table> {
    let mut draft = TableDraft::new(heap)?;
    accepted(build(&mut draft))?;
    Ok(draft.start())
}

fn can(subject: usize, right: usize) -> Question {
    Question::Can {
        subject,
        object: P1,
        right,
    }
}

fn can_new(subject: usize, right: usize) -> Question {
    Question::CanNew {
        subject,
        kind: PAPER,
        right,
    }
}

pub fn run(rt: &impl Print, heap: Global) -> anyhow::Result<()> {
    let names = Names {
        rights: &["own", "seen", "ok", "print"],
        object_types: &["paper"],
        subjects: &["ann", "ben", "cy"],
        objects: &["p1"],
    };
    let mut task = Task::new(rt, heap, names, book(heap)?, table(heap)?)?;
    println!(rt; "paper review: authors ann and cy, checker ben; ann owns p1")?;
    task.ask(&[
        can(ANN, PRINT),
        can(CY, PRINT),
        can_new(CY, PRINT),
        can(ANN, OWN),
    ])?;
    task.names = Names {
        objects: &["p1", "p2"],
        ..names
    };
    task.walk(&[
        Watch::transform(ANN, P1, PRINT),
        Watch::grant(ANN, BEN, P1, SEEN),
        Watch::grant(ANN, BEN, P1, SEEN),
        Watch::grant(BEN, ANN, P1, OK),
        Watch::transform(ANN, P1, PRINT),
        Watch::grant(ANN, ANN, P1, SEEN),
        Watch::grant(CY, BEN, P1, SEEN),
        Watch::revoke(CY, BEN, P1, SEEN),
        Watch::revoke(ANN, BEN, P1, SEEN),
        Watch::revoke(ANN, BEN, P1, SEEN),
        Watch::create(BEN, PAPER, P1),
        Watch::create(CY, PAPER, P2),
        Watch::grant(CY, BEN, P2, SEEN),
        Watch::grant(BEN, CY, P2, OK),
        Watch::transform(CY, P2, PRINT),
    ])
}
