// The reader of a line.
ghost use Rattle.std.specs.Prelude.{◌≡◌, ◌+◌, ◌-◌, ◌<◌, ◌≤◌, length, take, MatchResult, slice_index};
ghost use Rattle.std.specs.List.{prefix_len};
ghost use Rattle.grammar.specs.Bytes.{class, word_byte};
ghost use Rattle.grammar.specs.Limits.{max_depth, max_word};
ghost use Rattle.grammar.specs.Reader.{read};
ghost use Rattle.words.specs.Names.{is_letter};
ghost use Rattle.words.specs.Stops.{stopped};
ghost use Rattle.words.specs.Tree.{shape, Refuses, ByteThere, WordEnds, WordRefused, ItemAnswered, ListAnswered, LineRead, LineStands, LineFails};

use crate::limits::{MAX_DEPTH, MAX_WORD};
use crate::stop::{At, Failed, Stop};
use crate::tree::{Item, Items, Word};
use crate::word::{is_word_byte, refusal_of};
use rights::Refusal;
use std::alloc::Global;

// How many bytes of a word stand at the front; one more than a word may have stand for any more.
fn letters(text: &[u8]) -> usize
    ensures { result ≡ prefix_len is_letter (take (max_word + 1) text.now) }
{
    text.iter()
        .take(MAX_WORD + 1)
        .take_while(|b| is_word_byte(**b))
        .count()
}

fn stop(refusal: Refusal, place: usize) -> Stop
    ensures { result ≡ stopped refusal place }
{
    Failed::Because(At { refusal, place })
}

// Reads the text at its first line, and keeps what it reads on the heap.
#[derive(Clone, Copy, Drop)]
struct Reader<'a> {
    heap: Global,
    text: &'a [u8],
}

impl Reader<'_> {
    // The byte at a place: a line does not end with its text.
    fn byte(&self, at: usize) -> Result<u8, Stop>
        ensures { ByteThere self.now.text.now at result }
    {
        self.text
            .get(at)
            .copied()
            .ok_or(stop(Refusal::LineBroken, at))
    }

    // Where the word that begins at `at` ends.
    fn word_end(&self, at: usize) -> Result<usize, Stop>
        requires within { at < length self.now.text.now }
        requires word { class (slice_index self.now.text.now at) ≡ word_byte }
        ensures { MatchResult result (WordEnds self.now.text.now at) (WordRefused self.now.text.now at) }
    {
        let letters = letters(&self.text[at..]);
        if letters > MAX_WORD {
            return Err(stop(Refusal::WordTooLong, at + MAX_WORD));
        }
        Ok(at + letters)
    }

    // An item of a list in which `room` more lists may be opened, whatever stands before it.
    #[cycle(item_list)]
    fn item(&self, at: usize, room: usize) -> Result<(Item, usize), Stop>
        requires open { room < max_depth }
        ensures { ItemAnswered self.now.text.now at (max_depth - room) result }
    {
        let b = self.byte(at)?;
        match b as char {
            '(' if room > 0 => {
                let (items, end) = self.list(at + 1, room - 1)?;
                Ok((Item::List(items), end))
            }
            _ if is_word_byte(b) => {
                let upto = self.word_end(at)?;
                Ok((Item::Word(Word { from: at, upto }), upto))
            }
            _ => Err(stop(refusal_of(b, room, 0), at)),
        }
    }

    // The items of a list, from behind its opening bracket up to behind its closing one.
    #[cycle(item_list)]
    fn list(&self, from: usize, room: usize) -> Result<(Items, usize), Stop>
        requires within { from ≤ length self.now.text.now }
        requires open { room < max_depth }
        ensures { ListAnswered self.now.text.now from (max_depth - room) result }
    {
        let mut items = Vec::new(self.heap);
        if self.byte(from)? as char == ')' {
            return Ok((items, from + 1));
        }
        // Each item says where the next one begins.
        let mut at = from;
        loop {
            let (item, end) = self.item(at, room)?;
            let b = self.byte(end)?;
            match b as char {
                ')' => {
                    // The last item wants no room beside it.
                    items.reserve_exact(1)?;
                    items.push(item)?;
                    return Ok((items, end + 1));
                }
                ' ' => {
                    items.push(item)?;
                    at = end + 1;
                }
                _ => return Err(stop(refusal_of(b, room, 0), end)),
            }
        }
    }

    fn form(&self) -> Result<(Items, usize), Stop>
        ensures { MatchResult result (λ p. LineRead self.now.text.now (shape self.now.text.now p.0.items) p.1) (λ e. Refuses e (read self.now.text.now)) }
    {
        let first = self.byte(0)?;
        if first as char != '(' {
            return Err(stop(refusal_of(first, MAX_DEPTH, 0), 0));
        }
        let (form, end) = self.list(1, MAX_DEPTH - 1)?;
        let last = self.byte(end)?;
        if last as char != '\n' {
            return Err(stop(refusal_of(last, MAX_DEPTH, 0), end));
        }
        Ok((form, end + 1))
    }
}

// The first line of a text: its form, and where the next line begins.
pub fn line(heap: Global, text: &[u8]) -> Result<(Items, usize), Stop>
    ensures reads { MatchResult result (λ p. LineRead text.now (shape text.now p.0.items) p.1) (λ e. Refuses e (read text.now)) }
    ensures means { MatchResult result (λ p. LineStands text.now (shape text.now p.0.items) p.1) (LineFails text.now) }
{
    Reader { heap, text }.form()
}
