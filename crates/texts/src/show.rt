// What a text comes to, printed.
use crate::probe::probes;
use books::RuleBook;
use entries::{Entry, Keyed};
use faults::Fault;
use rights::kind::{Numbered, RightKind};
use rights::{Number, ObjectType, Right, RightSet, SubjectType};
use schemes::Scheme;
use std::alloc::{AllocError, Global};
use std::io;
use std::io::Write;

pub fn show_fault<W: Write>(out: &mut W, fault: Fault) -> io::Result<()> {
    let number = fault.number();
    let line = fault.line;
    let layer = fault.layer();
    writeln!(out, "fault {number} {line} {layer}")
}

// The numbers of a kind of which so many are declared.
fn declared<K: Numbered>(heap: Global, count: usize) -> Result<Vec<Number<K>>, AllocError> {
    (0..count)
        .filter_map(|number| Number::new(number).ok())
        .collect(heap)
}

// The book's answer to a subject of one type: what it may add, or give to one of another type.
#[derive(Clone, Copy)]
struct Asked {
    by: SubjectType,
    to: Option<SubjectType>,
    on: ObjectType,
}

// A scheme, and where it is printed.
#[derive(Drop)]
struct Printer<'a, W> {
    out: &'a mut W,
    scheme: &'a Scheme,
}

impl<W: Write> Printer<'_, W> {
    fn bytes(&mut self, bytes: &[u8]) -> io::Result<()> {
        self.out.write_all(bytes)
    }

    // The name of this number.
    fn name<K: Numbered>(&mut self, entries: &[Entry<K>], number: Number<K>) -> io::Result<()> {
        match entries.get(number.number()) {
            Some(entry) => self.bytes(entry.key()),
            None => Ok(()),
        }
    }

    fn right(&mut self, right: Right) -> io::Result<()> {
        let rights = self.scheme.rights();
        self.name(rights, right)
    }

    fn subject_type(&mut self, number: SubjectType) -> io::Result<()> {
        let types = self.scheme.subject_types();
        self.bytes(b" ")?;
        self.name(types, number)
    }

    fn object_type(&mut self, number: ObjectType) -> io::Result<()> {
        let types = self.scheme.object_types();
        self.bytes(b" ")?;
        self.name(types, number)
    }

    fn names<K>(&mut self, label: &[u8], entries: &[Entry<K>]) -> io::Result<()> {
        self.bytes(label)?;
        for entry in entries {
            self.bytes(b" ")?;
            self.bytes(entry.key())?;
        }
        self.bytes(b"\n")
    }

    // The rights of a set behind a colon.
    fn set(&mut self, set: RightSet) -> io::Result<()> {
        self.bytes(b" :")?;
        for right in set.members() {
            self.bytes(b" ")?;
            self.right(right)?;
        }
        self.bytes(b"\n")
    }

    // The rights of a set with commas between them, or `-`.
    fn held(&mut self, set: RightSet) -> io::Result<()> {
        if set.is_empty() {
            return self.bytes(b" -");
        }
        for (i, right) in set.members().enumerate() {
            self.bytes(if i == 0 { b" " } else { b"," })?;
            self.right(right)?;
        }
        Ok(())
    }

    fn owner(&mut self) -> io::Result<()> {
        self.bytes(b"owner ")?;
        match self.scheme.book().owner() {
            Some(right) => self.right(right)?,
            None => self.bytes(b"-")?,
        }
        self.bytes(b"\n")
    }

    // The creation of a pair of types, if there is one.
    fn creation(&mut self, by: SubjectType, on: ObjectType) -> io::Result<()> {
        let Some(gets) = self.scheme.book().creation(by, on) else {
            return Ok(());
        };
        self.bytes(b"create")?;
        self.subject_type(by)?;
        self.object_type(on)?;
        self.set(gets)
    }

    // What the book answers to who holds this set, where that is something. It stands out of line, so that the loop over
    // the book's rows keeps what it compares with in registers.
    #[inline(never)]
    fn answer(&mut self, asked: &Asked, held: RightSet) -> io::Result<()> {
        let Asked { by, to, on } = *asked;
        let book = self.scheme.book();
        let answer = match to {
            None => book.may_add(by, on, held),
            Some(to) => book.may_give(by, to, on, held),
        };
        if answer.is_empty() {
            return Ok(());
        }
        self.bytes(if to.is_none() { b"add" } else { b"give" })?;
        self.subject_type(by)?;
        if let Some(to) = to {
            self.subject_type(to)?;
        }
        self.object_type(on)?;
        self.held(held)?;
        self.set(answer)
    }

    // The answers to who holds each of these sets.
    fn answers(&mut self, asked: &Asked, held: &[RightSet]) -> io::Result<()> {
        for set in held {
            self.answer(asked, *set)?;
        }
        Ok(())
    }

    fn book(
        &mut self,
        subjects: &[SubjectType],
        objects: &[ObjectType],
        held: &[RightSet],
    ) -> io::Result<()> {
        for by in subjects {
            for on in objects {
                self.creation(*by, *on)?;
            }
        }
        for by in subjects {
            for on in objects {
                let (by, to, on) = (*by, None, *on);
                self.answers(&Asked { by, to, on }, held)?;
            }
        }
        for by in subjects {
            for to in subjects {
                for on in objects {
                    let (by, to, on) = (*by, Some(*to), *on);
                    self.answers(&Asked { by, to, on }, held)?;
                }
            }
        }
        Ok(())
    }
}

pub fn show_scheme<W: Write>(heap: Global, out: &mut W, scheme: &Scheme) -> io::Result<()> {
    let rights = declared(heap, scheme.rights().len())?;
    let held = probes(heap, &rights)?;
    let subjects = declared(heap, scheme.subject_types().len())?;
    let objects = declared(heap, scheme.object_types().len())?;
    let mut printer = Printer { out, scheme };
    printer.bytes(b"scheme\n")?;
    printer.names(b"rights", scheme.rights())?;
    printer.names(b"subject-types", scheme.subject_types())?;
    printer.names(b"object-types", scheme.object_types())?;
    printer.owner()?;
    printer.book(&subjects, &objects, &held)?;
    printer.bytes(b"end\n")
}
