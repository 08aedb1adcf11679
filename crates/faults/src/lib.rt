// Faults of texts, and the line that a fault names.
#![tactic(auto)]

ghost use Rattle.std.specs.Prelude.{◌≡◌, ◌≤◌, length};
ghost use Rattle.rights.specs.Refusals.{refusal_number};
ghost use Rattle.faults.specs.Layers.{layer_of};
ghost use Rattle.faults.specs.Lines.{named_text, place_of_line, bytes_of_line, first_line, from_line, LinesFound};

mod fault;

pub use fault::{Fault, Layer, Text};
use rights::Refusal;

impl Fault {
    // The number of the refusal.
    pub fn number(self) -> usize
        ensures { result ≡ refusal_number self.refusal }
    {
        self.refusal.number()
    }

    pub fn layer(self) -> Layer
        ensures { result ≡ layer_of self.refusal }
    {
        match self.refusal {
            Refusal::TextTooLong
            | Refusal::BadByte
            | Refusal::LineBroken
            | Refusal::TooDeep
            | Refusal::WordTooLong => Layer::Words,
            Refusal::WrongForm => Layer::Forms,
            _ => Layer::Meaning,
        }
    }
}

// The text before the first line end.
fn first_line(text: &[u8]) -> &[u8]
    ensures { result.now ≡ first_line text.now }
{
    text.split(|byte| *byte == b'\n').next().unwrap_or(text)
}

// The text from a line on. There is no line 0; from a line that the text does not have, the empty part at its end.
fn from_line(text: &[u8], line: usize) -> &[u8]
    ensures within { length result.now ≤ length text.now }
    ensures rest { result.now ≡ from_line line text.now }
{
    text.splitn(line, |byte| *byte == b'\n')
        .nth(line.saturating_sub(1))
        .unwrap_or(&text[text.len()..])
}

// The faulty line, as a part of the text that the fault names: where it begins, and its bytes without the line end. A
// line that the text does not have is the empty part at the text's end.
pub fn faulty_line<'a>(fault: Fault, scheme: &'a [u8], table: &'a [u8]) -> (usize, &'a [u8])
    ensures place { result.0 ≡ place_of_line fault.line (named_text fault.text scheme.now table.now) }
    ensures bytes { result.1.now ≡ bytes_of_line fault.line (named_text fault.text scheme.now table.now) }
{
    let text = match fault.text {
        Text::Scheme => scheme,
        Text::Table => table,
    };
    let rest = from_line(text, fault.line);
    (text.len() - rest.len(), first_line(rest))
}

// What a part is that is found as a line.
pub fn lines_found()
    ensures { LinesFound }
{}
