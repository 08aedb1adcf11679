// Questions, calls and their answers, by number.
ghost use Rattle.std.specs.Prelude.{◌≡◌};
ghost use Rattle.safety.specs.Questions.{reply_value, step_reply};

use monitor::{Done, Step};
use rights::Refusal;

#[derive(Clone, Copy, PartialEq, Eq)]
pub enum Question {
    // Can the subject ever hold the right for the object?
    Can {
        subject: usize,
        object: usize,
        right: usize,
    },
    // Can it ever hold the right for some object of this type that is not in the table yet?
    CanNew {
        subject: usize,
        kind: usize,
        right: usize,
    },
}

// A step inside one object's column of the table.
#[derive(Clone, Copy, PartialEq, Eq)]
pub enum Move {
    // The receiver adds the right to its own cell.
    Add {
        receiver: usize,
        right: usize,
    },
    // The giver puts the right into the receiver's cell.
    Give {
        giver: usize,
        receiver: usize,
        right: usize,
    },
}

// Any of the six calls: a step (create, transform, grant, revoke) or a question (can, can-new).
#[derive(Clone, Copy, PartialEq, Eq)]
pub enum Call {
    Act(Step),
    Ask(Question),
}

// What a call answers.
#[derive(Clone, Copy, PartialEq, Eq)]
pub enum Reply {
    // An object was made: its number.
    Made(usize),
    // The right is in the cell: was it new there?
    Added(bool),
    // The right was taken.
    Taken,
    // The asked holding never comes.
    Never,
    // It can come: the number of steps of the shown run.
    Can(usize),
    // A refusal is a reply like the others, so that the law is said once, of replies.
    Refused(Refusal),
}

impl Reply {
    // The value of the reply, if it has one.
    pub fn value(self) -> Option<usize>
        ensures { result ≡ reply_value self }
    {
        match self {
            Reply::Made(object) => Some(object),
            Reply::Added(new) => Some(usize::from(new)),
            Reply::Taken => None,
            Reply::Never => Some(0),
            Reply::Can(count) => Some(count),
            Reply::Refused(refusal) => Some(refusal.number()),
        }
    }
}

impl From<Result<Done, Refusal>> for Reply {
    ghost from_gives = { λ res reply. reply ≡ step_reply res };

    fn from(res: Result<Done, Refusal>) -> Reply {
        match res {
            Ok(Done::Made(object)) => Reply::Made(object),
            Ok(Done::Added(new)) => Reply::Added(new),
            Ok(Done::Taken) => Reply::Taken,
            Err(refusal) => Reply::Refused(refusal),
        }
    }
}
