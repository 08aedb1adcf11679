// The names of a task: each kind by number, from 0.
use monitor::Step;
use rights::RightSet;
use safety::Question;
use std::fmt;

#[derive(Clone, Copy)]
pub struct Names<'a> {
    pub rights: &'a [&'a str],
    pub object_types: &'a [&'a str],
    pub subjects: &'a [&'a str],
    pub objects: &'a [&'a str],
}

// The name of this number, or * where there is none.
fn name_at<'a>(names: &'a [&'a str], number: usize) -> &'a str {
    names.get(number).copied().unwrap_or("*")
}

impl<'a> Names<'a> {
    fn right(&self, number: usize) -> &'a str {
        name_at(self.rights, number)
    }

    fn object_type(&self, number: usize) -> &'a str {
        name_at(self.object_types, number)
    }

    fn subject(&self, number: usize) -> &'a str {
        name_at(self.subjects, number)
    }

    fn object(&self, number: usize) -> &'a str {
        name_at(self.objects, number)
    }

    // The names of a subject, an object and a right.
    fn holding(&self, subject: usize, object: usize, right: usize) -> (&'a str, &'a str, &'a str) {
        (
            self.subject(subject),
            self.object(object),
            self.right(right),
        )
    }

    // What a line shows, with these names for its numbers.
    pub fn show<T>(self, shown: T) -> Named<'a, T> {
        Named { names: self, shown }
    }
}

// A step, a question or a cell with the names of its parts.
#[derive(Drop)]
pub struct Named<'a, T> {
    names: Names<'a>,
    shown: T,
}

impl fmt::Display for Named<'_, Step> {
    fn fmt<W: fmt::Write>(&self, f: &mut fmt::Formatter<W>) -> fmt::Result {
        match self.shown {
            Step::Create { subject, kind } => {
                let s = self.names.subject(subject);
                let t = self.names.object_type(kind);
                write!(f, "(create {s} * {t})")
            }
            Step::Transform {
                subject,
                object,
                right,
            } => {
                let (s, o, r) = self.names.holding(subject, object, right);
                write!(f, "(itrans {s} {o} {r})")
            }
            Step::Grant {
                giver,
                receiver,
                object,
                right,
            } => {
                let s = self.names.subject(giver);
                let (d, o, r) = self.names.holding(receiver, object, right);
                write!(f, "(grant {s} {d} {o} {r})")
            }
            Step::Revoke {
                owner,
                loser,
                object,
                right,
            } => {
                let s = self.names.subject(owner);
                let (d, o, r) = self.names.holding(loser, object, right);
                write!(f, "(revoke {s} {d} {o} {r})")
            }
        }
    }
}

impl fmt::Display for Named<'_, Question> {
    fn fmt<W: fmt::Write>(&self, f: &mut fmt::Formatter<W>) -> fmt::Result {
        match self.shown {
            Question::Can {
                subject,
                object,
                right,
            } => {
                let (s, o, r) = self.names.holding(subject, object, right);
                write!(f, "(can {s} {o} {r})")
            }
            Question::CanNew {
                subject,
                kind,
                right,
            } => {
                let s = self.names.subject(subject);
                let t = self.names.object_type(kind);
                let r = self.names.right(right);
                write!(f, "(can-new {s} {t} {r})")
            }
        }
    }
}

// What a subject holds for an object.
#[derive(Clone, Copy)]
pub struct Cell {
    pub subject: usize,
    pub object: usize,
    pub held: RightSet,
}

impl fmt::Display for Named<'_, Cell> {
    fn fmt<W: fmt::Write>(&self, f: &mut fmt::Formatter<W>) -> fmt::Result {
        let s = self.names.subject(self.shown.subject);
        let o = self.names.object(self.shown.object);
        write!(f, "{s} {o} (")?;
        for (i, right) in self.shown.held.members().enumerate() {
            if i > 0 {
                f.write_str(" ")?;
            }
            f.write_str(self.names.right(right.number()))?;
        }
        f.write_str(")")
    }
}
