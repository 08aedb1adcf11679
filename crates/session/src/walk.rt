// A task that is walked through the monitor, and printed line by line.
use crate::names::{Cell, Names};
use anyhow::Context;
use books::RuleBook;
use monitor::{Step, Table};
use questions::{RUN_PLACES, perform};
use rights::Refusal;
use safety::{Call, Question, Reply};
use std::alloc::Global;
use std::fmt;

// A step, and the cell to look at after it.
#[derive(Clone, Copy)]
pub struct Watch {
    step: Step,
    subject: usize,
    object: usize,
}

impl Watch {
    pub fn transform(subject: usize, object: usize, right: usize) -> Watch {
        let step = Step::Transform {
            subject,
            object,
            right,
        };
        Watch {
            step,
            subject,
            object,
        }
    }

    pub fn grant(giver: usize, receiver: usize, object: usize, right: usize) -> Watch {
        let step = Step::Grant {
            giver,
            receiver,
            object,
            right,
        };
        Watch {
            step,
            subject: receiver,
            object,
        }
    }

    pub fn revoke(owner: usize, loser: usize, object: usize, right: usize) -> Watch {
        let step = Step::Revoke {
            owner,
            loser,
            object,
            right,
        };
        Watch {
            step,
            subject: loser,
            object,
        }
    }

    // The cell is the creator's for this object.
    pub fn create(subject: usize, kind: usize, object: usize) -> Watch {
        let step = Step::Create { subject, kind };
        Watch {
            step,
            subject,
            object,
        }
    }
}

// A declaration that has to be accepted.
pub fn accepted<T>(res: Result<T, Refusal>) -> anyhow::Result<T> {
    res.ok().context("a declaration of the example is refused")
}

// A reply as a line shows it.
#[derive(Drop)]
struct Shown(Reply);

impl fmt::Display for Shown {
    fn fmt<W: fmt::Write>(&self, f: &mut fmt::Formatter<W>) -> fmt::Result {
        match self.0 {
            Reply::Made(object) => write!(f, "(made {object})"),
            Reply::Added(new) => write!(f, "(added {})", usize::from(new)),
            Reply::Taken => f.write_str("(taken)"),
            Reply::Never => f.write_str("(never)"),
            Reply::Can(count) => write!(f, "(can {count})"),
            Reply::Refused(refusal) => write!(f, "(refused {})", refusal.number()),
        }
    }
}

// A task: where its lines are printed, the names in them, its book and its table, and the run list of its calls.
#[derive(Drop)]
pub struct Task<'a, R, B> {
    rt: &'a R,
    pub names: Names<'a>,
    book: B,
    table: Table,
    run: Vec<Step>,
}

impl<'a, R: Print, B: RuleBook + Drop> Task<'a, R, B> {
    pub fn new(
        rt: &'a R,
        heap: Global,
        names: Names<'a>,
        book: B,
        table: Table,
    ) -> anyhow::Result<Self> {
        let unused = Step::Create {
            subject: 0,
            kind: 0,
        };
        let run = vec![in heap; unused; RUN_PLACES]?;
        Ok(Task {
            rt,
            names,
            book,
            table,
            run,
        })
    }

    fn perform(&mut self, call: Call) -> Reply {
        perform(&mut self.table, &self.book, call, &mut self.run)
    }

    // Makes the steps, and prints each with its answer and the watched cell after it.
    pub fn walk(&mut self, watches: &[Watch]) -> anyhow::Result<()> {
        for watch in watches {
            let reply = Shown(self.perform(Call::Act(watch.step)));
            let step = self.names.show(watch.step);
            let cell = self.names.show(Cell {
                subject: watch.subject,
                object: watch.object,
                held: accepted(self.table.cell(watch.subject, watch.object))?,
            });
            println!(self.rt; "{step} {reply} now {cell}")?;
        }
        Ok(())
    }

    // Puts the questions, and prints each with its answer and the steps of the shown run.
    pub fn ask(&mut self, questions: &[Question]) -> anyhow::Result<()> {
        for question in questions {
            let reply = self.perform(Call::Ask(*question));
            println!(self.rt; "{} {}", self.names.show(*question), Shown(reply))?;
            if let Reply::Can(count) = reply {
                for step in self.run.iter().take(count) {
                    println!(self.rt; "  {}", self.names.show(*step))?;
                }
            }
        }
        Ok(())
    }
}
