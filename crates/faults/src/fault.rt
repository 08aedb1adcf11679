// Faults of texts: why a text is refused, and where.
ghost use Rattle.std.specs.Prelude.{Some};

use rights::Refusal;
use std::fmt;

// Which of the two files a fault is in.
#[derive(Clone, Copy, PartialEq, Eq, Debug)]
pub enum Text {
    Scheme,
    Table,
}

// How far the reading of a text had come.
#[derive(Clone, Copy, PartialEq, Eq, Debug)]
pub enum Layer {
    // bytes, words and lines
    Words,
    // the head of a form, and the count and kind of its items
    Forms,
    // names, and what a declaration asks
    Meaning,
}

impl fmt::Display for Layer {
    ghost use Rattle.faults.specs.Layers.{word_of};

    ghost output = { λ layer. Some (word_of layer) };

    fn fmt<W: fmt::Write>(&self, f: &mut fmt::Formatter<W>) -> fmt::Result {
        f.write_str(match self {
            Layer::Words => "words",
            Layer::Forms => "forms",
            Layer::Meaning => "meaning",
        })
    }
}

// The first fault of a text. Lines count from 1; a text that is too long has its fault in line 0.
#[derive(Clone, Copy, PartialEq, Eq, Debug)]
pub struct Fault {
    pub refusal: Refusal,
    pub text: Text,
    pub line: usize,
}
