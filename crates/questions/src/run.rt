// The run that a question shows.
ghost use Rattle.std.specs.Prelude.{◌≡◌, ◌+◌, ◌<◌, ◌≤◌, ◌∷◌, ◌++◌, [], length, Some};
ghost use Rattle.rights.specs.Limits.{max_rights};
ghost use Rattle.safety.specs.Questions.{told, list_places};

use monitor::Step;
use rights::limits::{MAX_RIGHTS, MAX_SUBJECTS};
use safety::Reply;
use std::marker::Model;

// The most moves that a column can want: each right for each subject.
pub(crate) const MAX_MOVES: usize = MAX_SUBJECTS * MAX_RIGHTS;

// The places that a run list needs: for the moves, and for a create.
pub const RUN_PLACES: usize = MAX_MOVES + 1;

// The steps of a run, from the first on. They stand in an array, since no question may want memory; and not in the
// caller's list, which stays as it is unless the whole run is found.
#[derive(Drop)]
pub(crate) struct Run {
    steps: [Step; RUN_PLACES],
    count: usize,
}

impl Model for Run {
    ghost use Rattle.std.specs.Prelude.{◌≡◌, ◌≤◌, List, length, take};
    ghost use Rattle.rights.specs.Limits.{max_rights};
    ghost use Rattle.monitor.specs.declared.step.Step.{Step};
    ghost use Rattle.safety.specs.Questions.{list_places};

    ghost Value = { List Step };

    ghost view = { λ r. take r.count r.steps };

    ghost invariant = { λ r. (length r.steps ≡ list_places max_rights) × (r.count ≤ list_places max_rights) };
}

impl Run {
    pub(crate) fn new() -> Run
        ensures { result ≡ [] }
    {
        let unused = Step::Create {
            subject: 0,
            kind: 0,
        };
        Run {
            steps: [unused; RUN_PLACES],
            count: 0,
        }
    }

    pub(crate) fn clear(&mut self)
        ensures { self.new ≡ [] }
    {
        self.count = 0;
    }

    pub(crate) fn push(&mut self, step: Step)
        requires { length self.old < list_places max_rights }
        ensures { self.new ≡ self.old ++ step ∷ [] }
    {
        self.steps[self.count] = step;
        self.count += 1;
    }

    // The run into the first places of the caller's list.
    pub(crate) fn tell(&self, list: &mut [Step]) -> Reply
        requires { list_places max_rights ≤ length list.old }
        ensures { (list.new, result) ≡ told list.old (Some self.now) }
    {
        list[..self.count].copy_from_slice(&self.steps[..self.count]);
        Reply::Can(self.count)
    }
}
