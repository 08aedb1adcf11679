// Makes the calls that standard input names, one on a line, and prints each line with its answer: ` -> ` and then the
// answer. So the calls can be compared with what a second, independent program answers to the same lines.
//
// A line is a word, and then a space and numbers with blanks between them. The lists of a row stand behind colons.
//
//     book                            a new draft of a row book                    ok
//     right                           one more right                               its number
//     subject-type                    one more type of subjects                    its number
//     object-type                     one more type of objects                     its number
//     owner R                         the right that marks an owner                ok
//     creation U O : R ..             what U gets that creates an O                ok
//     transform U O : NEED .. : GIVES ..    a transform row                        ok
//     grant U V O : NEED .. : GIVES ..      a grant row                            ok
//     fix                             the draft becomes the current book           ok
//     flags N GIVERS RECEIVERS CREATORS SERVED STRONG FRESH                        ok
//                                     a copy-flag book becomes the current book: types below 16 with commas between
//                                     them or `-`, then `0` or `1`, then `counted` or `unlimited`
//     table                           a new draft of a table                       ok
//     subject U, object O             one more subject or object of the type       its number
//     hold S O R                      S holds R for O                              ok
//     start                           the draft becomes the current table          ok
//     create S T                      S makes an object of type T                  made NUMBER
//     add S O R                       S adds R to its cell by a transform          added 1, or added 0 if it was there
//     give S D O R                    S gives R to D                               the same
//     revoke S D O R                  S takes R from D                             taken
//     can S O R                       can S ever hold R for O?                     never, or can K : STEP : STEP ..
//     can-new S T R                   and for some new object of type T?           the same
//     cell S O                        what S holds for O                           {R ..} in order of number
//     dump                            all cells that are not empty                 S/O{R ..} .., or nothing
//
// A step or a question is made with a run list of 2049 places. A question may name another number of places, at most
// 4096, behind its other numbers. The K steps of a shown run are written as lines name them. Before the call each place
// holds one marker step, and the answer ends with ` list-touched` if a place behind the shown run does not hold it
// after the call.
//
// A refused call answers `refused` and the number of the refusal. A line that names no call, or a call for which the
// draft, the book or the table is missing, answers `unreadable`, and nothing else happens. An empty line and a line
// that begins with `#` are printed as they are. Bytes that are no text are read and printed as U+FFFD.
#![tactic(auto)]

mod answer;
mod command;
mod fault;
mod session;

use crate::fault::Fault;
use crate::session::Session;
use std::io;
use std::io::{BufRead, BufReader, BufWriter, Write};

// Prints the line, and the answer if it is a call.
fn reply<W: Write>(out: &mut W, session: &mut Session, line: &str) -> io::Result<()> {
    if line.is_empty() || line.starts_with('#') {
        return writeln!(out, "{line}");
    }
    match session.answer(line) {
        Ok(answer) => writeln!(out, "{line} -> {answer}"),
        Err(Fault::Refused(refusal)) => writeln!(out, "{line} -> refused {}", refusal.number()),
        Err(Fault::Unreadable) => writeln!(out, "{line} -> unreadable"),
        Err(Fault::Memory(e)) => Err(e.into()),
    }
}

fn main(rt: HostRuntime) -> io::Result<()> {
    let heap = rt.alloc();
    let mut session = Session::new(heap);
    let mut out = BufWriter::new(heap, rt.stdout())?;
    for bytes in BufReader::new(heap, rt.stdin())?.split(heap, b'\n') {
        let line = String::from_utf8_lossy(heap, bytes?.as_slice())?;
        reply(&mut out, &mut session, line.as_str())?;
    }
    out.flush()
}
