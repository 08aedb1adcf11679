// Reading a scheme text, line by line; the first faulty line decides.
ghost use Rattle.std.specs.Prelude.{◌≡◌};
ghost use Rattle.words.specs.declared.stop.Failed.TheVariants.{Because};
ghost use Rattle.meaning.specs.Schemes.{in_scheme, scheme_text};
ghost use Rattle.readings.specs.Results.{stopped_at, denied_at, ReadAs, FilledAs, MeansIfRead};

use crate::declare::declare_line;
use crate::failure::Failure;
use faults::{Fault, Text};
use rights::Refusal;
use schemes::{Scheme, SchemeDraft};
use std::alloc::Global;
use words::limits::MAX_TEXT;
use words::{Denial, Stop, line};

// Why the text is not read, where a line of it is refused.
fn in_scheme(refusal: Refusal, line: usize) -> Failure
    ensures { result ≡ Because (in_scheme refusal line) }
{
    Failure::Because(Fault {
        refusal,
        text: Text::Scheme,
        line,
    })
}

// This and the next are not one: a generic one would take a closure, with clauses for it, and be no plainer.
fn stopped(line: usize, stop: Stop) -> Failure
    ensures { result ≡ stopped_at line stop }
{
    match stop {
        Stop::Memory => Failure::Memory,
        Stop::Because(at) => in_scheme(at.refusal, line),
    }
}

fn denied(line: usize, denial: Denial) -> Failure
    ensures { result ≡ denied_at line denial }
{
    match denial {
        Denial::Memory => Failure::Memory,
        Denial::Because(refusal) => in_scheme(refusal, line),
    }
}

// The draft that the text comes to.
fn read_draft(heap: Global, text: &[u8]) -> Result<SchemeDraft, Failure>
    ensures { ReadAs (scheme_text text.now) result }
{
    if text.len() > MAX_TEXT {
        return Err(in_scheme(Refusal::TextTooLong, 0));
    }
    let mut draft = SchemeDraft::new(heap)?;
    let mut rest = text;
    let mut number = 1;
    while !rest.is_empty() {
        let (items, end) = line(heap, rest).map_err(|stop| stopped(number, stop))?;
        declare_line(heap, &mut draft, rest, &items).map_err(|denial| denied(number, denial))?;
        rest = &rest[end..];
        number += 1;
    }
    Ok(draft)
}

// Reads a scheme text into the scheme that the caller brings, whatever it held. Refused, or for want of memory, it is
// the empty one.
pub fn read_scheme(heap: Global, text: &[u8], scheme: &mut Scheme) -> Result<(), Failure>
    ensures reads { FilledAs (scheme_text text.now) scheme.new result }
    ensures means { MeansIfRead text.now scheme.new result }
{
    scheme.clear();
    *scheme = read_draft(heap, text)?.fix();
    Ok(())
}
