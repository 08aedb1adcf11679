// Words by themselves, and why a byte is refused.
ghost use Rattle.std.specs.Prelude.{◌≡◌, ◌-◌};
ghost use Rattle.grammar.specs.Bytes.{class};
ghost use Rattle.grammar.specs.Limits.{max_depth};
ghost use Rattle.grammar.specs.Reader.{reason};
ghost use Rattle.grammar.specs.Words.{not_a_word};
ghost use Rattle.words.specs.Names.{judged, is_letter};

use crate::limits::{MAX_DEPTH, MAX_WORD};
use classes::class_of;
use classes::kinds::ByteClass;
use rights::Refusal;

pub fn is_word_byte(b: u8) -> bool
    ensures { result ≡ is_letter b }
{
    class_of(b) == ByteClass::WordByte
}

// Why a byte is refused, where so many more lists may be opened and so many bytes of a word stand just before.
pub fn refusal_of(b: u8, room: usize, letters: usize) -> Refusal
    ensures { result ≡ reason (class b) (max_depth - room) letters }
{
    match class_of(b) {
        ByteClass::Bad => Refusal::BadByte,
        ByteClass::Opening if room == 0 => Refusal::TooDeep,
        ByteClass::WordByte if letters == MAX_WORD => Refusal::WordTooLong,
        _ => Refusal::LineBroken,
    }
}

// Whether bytes that are given as a name are a word.
pub fn test_word(name: &[u8]) -> Result<(), Refusal>
    ensures { result ≡ judged (not_a_word name.now) }
{
    if name.is_empty() {
        return Err(Refusal::LineBroken);
    }
    for (at, b) in name.iter().enumerate() {
        if at == MAX_WORD || !is_word_byte(*b) {
            return Err(refusal_of(*b, MAX_DEPTH, at));
        }
    }
    Ok(())
}
