// A document that is handed on by copy flags: three counted flags, each one passing on lower ones only.
use crate::names::Names;
use crate::walk::{Task, Watch, accepted};
use flags::{CopyFlagBook, FreshFlag, Settings};
use monitor::{Table, TableDraft};
use rights::Refusal;
use rights::limits::{MAX_OBJECT_TYPES, MAX_SUBJECT_TYPES};
use safety::Question;
use std::alloc::Global;

const COPY_3: usize = 3;

const COPY_2: usize = 2;

const COPY_1: usize = 1;

const ACCESS: usize = 0;

const READER: usize = 0;

const DOCUMENT: usize = 0;

const DAN: usize = 0;

const EVE: usize = 1;

const FAY: usize = 2;

const D1: usize = 0;

fn book() -> Result<CopyFlagBook, Refusal> {
    let everybody = [true; MAX_SUBJECT_TYPES];
    CopyFlagBook::new(Settings {
        flags: 3,
        givers: everybody,
        receivers: everybody,
        creators: everybody,
        served: [true; MAX_OBJECT_TYPES],
        strong: true,
        fresh: FreshFlag::Counted,
    })
}

fn table(heap: Global) -> anyhow::Result<Table> {
    let mut draft = TableDraft::new(heap)?;
    for _ in 0..3 {
        accepted(draft.add_subject(READER))?;
    }
    Ok(draft.start())
}

pub fn run(rt: &impl Print, heap: Global) -> anyhow::Result<()> {
    let names = Names {
        rights: &["access", "copy-1", "copy-2", "copy-3"],
        object_types: &["document"],
        subjects: &["dan", "eve", "fay"],
        objects: &["d1"],
    };
    let mut task = Task::new(rt, heap, names, accepted(book())?, table(heap)?)?;
    println!(rt; "copy flags: 3 counted flags, strong; a creator gets copy-3")?;
    task.walk(&[
        Watch::create(DAN, DOCUMENT, D1),
        Watch::grant(DAN, EVE, D1, COPY_2),
        Watch::grant(EVE, FAY, D1, COPY_2),
        Watch::grant(EVE, FAY, D1, COPY_1),
        Watch::transform(FAY, D1, ACCESS),
        Watch::grant(FAY, EVE, D1, COPY_1),
    ])?;
    task.ask(&[Question::Can {
        subject: EVE,
        object: D1,
        right: COPY_3,
    }])
}
