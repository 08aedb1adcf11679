// Reads scheme texts from standard input and prints what each comes to, so that the reading can be compared with what a
// second, independent program makes of the same bytes.
//
// The input is a sequence of texts, each as its length in decimal, a line end and then so many bytes. Input that is not so
// framed ends the program. A faulty text prints one line, `fault NUMBER LINE LAYER`. A good one prints
//
//     scheme
//     rights NAME ..                  in order of number, as all that follows
//     subject-types NAME ..
//     object-types NAME ..
//     owner NAME                      or `owner -`
//     create U O : NAME ..            for each pair of types that has a creation
//     add U O HELD : NAME ..          what U may add for O when it holds HELD, where that is something
//     give U V O HELD : NAME ..       what U may give to V, likewise
//     end
//
// HELD is no right, each right alone, each right with the next one, and all rights; names with commas between them, or `-`.
#![tactic(auto)]

mod frame;
mod probe;
mod show;

use crate::frame::next_text;
use crate::show::{show_fault, show_scheme};
use readings::{Failure, read_scheme};
use schemes::Scheme;
use std::alloc::Global;
use std::io;
use std::io::{BufWriter, Read, Write};

fn judge<W: Write>(heap: Global, out: &mut W, scheme: &mut Scheme, text: &[u8]) -> io::Result<()> {
    match read_scheme(heap, text, scheme) {
        Ok(()) => show_scheme(heap, out, scheme),
        Err(Failure::Because(fault)) => show_fault(out, fault),
        Err(Failure::Memory) => writeln!(out, "no memory"),
    }
}

fn main(rt: HostRuntime) -> io::Result<()> {
    let heap = rt.alloc();
    let mut input = Vec::new(heap);
    rt.stdin().read_to_end(&mut input)?;
    let mut out = BufWriter::new(heap, rt.stdout())?;
    let mut scheme = Scheme::empty(heap)?;
    let mut rest = input.as_slice();
    while let Some((text, later)) = next_text(rest) {
        judge(heap, &mut out, &mut scheme, text)?;
        rest = later;
    }
    out.flush()
}
