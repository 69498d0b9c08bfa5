// The answers on a page, each as a line.
ghost use Rattle.std.specs.Prelude.{map, ◌+◌, ◌*◌, ◌<◌, ◌≤◌, length};
ghost use Rattle.rules.specs.Lists.{joined};
ghost use Rattle.page.specs.Page.{answers_on};
ghost use Rattle.list_text.specs.Listing.{line, word_text};
ghost use Rattle.list_text.specs.Writing.{Wrote};

use crate::put::{put_byte, put_number};
use page::answer_at;
use word::Word;

// A word takes at most 12 bytes: two for its kind, nine for its payload.
fn put_word(bits: u32, at: usize, out: &mut [u8]) -> usize
    requires { at + 12 ≤ 65536 }
    ensures { Wrote (word_text bits) at out.old result out.new × (result ≤ at + 12) }
{
    let word = Word::from_bits(bits);
    let kind = word.kind().number() as usize;
    let payload = word.payload() as usize;
    let mut next = put_number(kind, at, out);
    next = put_byte(b':', next, out);
    put_number(payload, next, out)
}

fn put_line(words: &[u32], at: usize, out: &mut [u8]) -> usize
    requires { (0 < length words.now) × (at + 13 * length words.now ≤ 65536) }
    ensures { Wrote (line words.now) at out.old result out.new × (result ≤ at + 13 * length words.now) }
{
    let mut next = put_word(words[0], at, out);
    for &word in &words[1..] {
        next = put_byte(b' ', next, out);
        next = put_word(word, next, out);
    }
    put_byte(b'\n', next, out)
}

// The answers as the walk over the page finds them.
pub(crate) fn put_answers(page: &[u32], at: usize, out: &mut [u8]) -> usize
    requires { at + 13 * length page.now ≤ 65536 }
    ensures { Wrote (joined (map line (answers_on page.now))) at out.old result out.new × (result ≤ 65536) }
{
    let mut next = at;
    let mut i = 0;
    while let Ok(part) = answer_at(page, i) {
        next = put_line(&page[i..part.end], next, out);
        i = part.end;
    }
    next
}
