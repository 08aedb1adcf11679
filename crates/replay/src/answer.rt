// What a call that is not refused answers.
use monitor::Step;
use rights::RightSet;
use safety::Reply;
use std::fmt;

// A cell that is not empty.
#[derive(Clone, Copy)]
pub struct Holding {
    pub subject: usize,
    pub object: usize,
    pub rights: RightSet,
}

// The reply to a step or to a question, and what was found in the run list behind the call.
#[derive(Drop)]
pub struct Told {
    pub reply: Reply,
    // The shown run.
    pub run: Vec<Step>,
    // Is a place behind the shown run not as it was before the call?
    pub touched: bool,
}

#[derive(Drop)]
pub enum Answer {
    Accepted,
    Number(usize),
    Told(Told),
    Cell(RightSet),
    Cells(Vec<Holding>),
}

// A value as a line shows it.
#[derive(Drop)]
struct Shown<T>(T);

// The numbers of the rights in braces.
impl fmt::Display for Shown<RightSet> {
    fn fmt<W: fmt::Write>(&self, f: &mut fmt::Formatter<W>) -> fmt::Result {
        f.write_str("{")?;
        for (i, right) in self.0.members().enumerate() {
            if i > 0 {
                f.write_str(" ")?;
            }
            write!(f, "{}", right.number())?;
        }
        f.write_str("}")
    }
}

impl fmt::Display for Shown<Reply> {
    fn fmt<W: fmt::Write>(&self, f: &mut fmt::Formatter<W>) -> fmt::Result {
        match self.0 {
            Reply::Made(object) => write!(f, "made {object}"),
            Reply::Added(new) => write!(f, "added {}", usize::from(new)),
            Reply::Taken => f.write_str("taken"),
            Reply::Never => f.write_str("never"),
            Reply::Can(count) => write!(f, "can {count}"),
            Reply::Refused(refusal) => write!(f, "refused {}", refusal.number()),
        }
    }
}

// The step as a line names it.
impl fmt::Display for Shown<Step> {
    fn fmt<W: fmt::Write>(&self, f: &mut fmt::Formatter<W>) -> fmt::Result {
        match self.0 {
            Step::Create { subject, kind } => write!(f, "create {subject} {kind}"),
            Step::Transform {
                subject,
                object,
                right,
            } => write!(f, "add {subject} {object} {right}"),
            Step::Grant {
                giver,
                receiver,
                object,
                right,
            } => write!(f, "give {giver} {receiver} {object} {right}"),
            Step::Revoke {
                owner,
                loser,
                object,
                right,
            } => write!(f, "revoke {owner} {loser} {object} {right}"),
        }
    }
}

impl fmt::Display for Told {
    fn fmt<W: fmt::Write>(&self, f: &mut fmt::Formatter<W>) -> fmt::Result {
        write!(f, "{}", Shown(self.reply))?;
        for step in self.run.iter() {
            write!(f, " : {}", Shown(*step))?;
        }
        if self.touched {
            f.write_str(" list-touched")?;
        }
        Ok(())
    }
}

impl fmt::Display for Holding {
    fn fmt<W: fmt::Write>(&self, f: &mut fmt::Formatter<W>) -> fmt::Result {
        write!(f, "{}/{}{}", self.subject, self.object, Shown(self.rights))
    }
}

impl fmt::Display for Answer {
    fn fmt<W: fmt::Write>(&self, f: &mut fmt::Formatter<W>) -> fmt::Result {
        match self {
            Answer::Accepted => f.write_str("ok"),
            Answer::Number(number) => write!(f, "{number}"),
            Answer::Told(told) => write!(f, "{told}"),
            Answer::Cell(rights) => write!(f, "{}", Shown(*rights)),
            Answer::Cells(cells) if cells.is_empty() => f.write_str("nothing"),
            Answer::Cells(cells) => {
                for (i, cell) in cells.iter().enumerate() {
                    if i > 0 {
                        f.write_str(" ")?;
                    }
                    write!(f, "{cell}")?;
                }
                Ok(())
            }
        }
    }
}
