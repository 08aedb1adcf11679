// The steps of the monitor, by number, and what it answers to a step that it accepts.
ghost use Rattle.std.specs.Prelude.{◌≡◌};
ghost use Rattle.monitor.specs.Answers.{answer_number};

#[derive(Clone, Copy, PartialEq, Eq)]
pub enum Step {
    // The subject makes an object of this type.
    Create {
        subject: usize,
        kind: usize,
    },
    // The subject adds the right to its own cell for the object.
    Transform {
        subject: usize,
        object: usize,
        right: usize,
    },
    // The giver puts the right into the receiver's cell for the object.
    Grant {
        giver: usize,
        receiver: usize,
        object: usize,
        right: usize,
    },
    // The owner takes the right from the loser's cell for the object.
    Revoke {
        owner: usize,
        loser: usize,
        object: usize,
        right: usize,
    },
}

#[derive(Clone, Copy, PartialEq, Eq)]
pub enum Done {
    // An object was made: its number.
    Made(usize),
    // The right is in the cell: was it new there?
    Added(bool),
    // The right was taken.
    Taken,
}

impl Done {
    // The answer as a number, if it is one.
    pub fn number(self) -> Option<usize>
        ensures { result ≡ answer_number self }
    {
        match self {
            Done::Made(object) => Some(object),
            Done::Added(new) => Some(usize::from(new)),
            Done::Taken => None,
        }
    }
}
