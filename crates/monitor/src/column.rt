// An object's column of the table.
use rights::limits::MAX_SUBJECTS;
use rights::{ObjectType, RightSet};
use std::marker::Model;

// The object's type, and a cell for each place at which a subject may stand.
#[derive(Clone, Copy)]
pub struct Column {
    pub kind: ObjectType,
    pub cells: [RightSet; MAX_SUBJECTS],
}

impl Model for Column {
    ghost use Rattle.monitor.specs.Columns.{Cells};

    ghost Value = { Cells };

    ghost view = { λ c. record { kind = c.kind; cells = c.cells } };

    ghost inverse = { λ c. record { kind = c.kind; cells = c.cells } };
}
