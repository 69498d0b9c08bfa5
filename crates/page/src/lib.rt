// The answers of an output page, found by their headers. Nothing inside an answer is looked at, and nothing is copied.
#![tactic(auto)]

ghost use Rattle.std.specs.Prelude.{◌≡◌};
ghost use Rattle.page.specs.Found.{found_says, no_answer};
ghost use Rattle.page.specs.Page.{answer_at, find, part_ptr, view};

use word::{Kind, Word};

// An answer on a page: its words from `start` up to but without `end`.
#[derive(Clone, Copy)]
pub struct Part {
    pub start: usize,
    pub end: usize,
}

// There is no such answer: the place where the walk over the page stopped.
#[derive(Clone, Copy)]
pub struct NoAnswer {
    pub place: usize,
}

impl NoAnswer {
    // The refusal's number in document 02, Note 1.
    pub fn number(self) -> u32
        ensures { result ≡ no_answer }
    {
        10
    }
}

// The answer whose header is at this place, or why there is none.
pub fn answer_at(page: &[u32], at: usize) -> Result<Part, NoAnswer>
    ensures { found_says result ≡ answer_at page.now at }
{
    if page.len() <= at {
        return Err(NoAnswer { place: page.len() });
    }
    let header = Word::from_bits(page[at]);
    if header.kind() != Kind::Answer {
        return Err(NoAnswer { place: at });
    }
    let words = header.payload() as usize;
    let left = page.len() - at - 1;
    if left < words {
        return Err(NoAnswer { place: at });
    }
    let end = at + 1 + words;
    Ok(Part { start: at, end })
}

// Where the answer of this number, from 0, stands on the page. One word is read for each answer that is passed, and at most one more, whatever their length.
pub fn find(page: &[u32], answer: u32) -> Result<Part, NoAnswer>
    ensures { found_says result ≡ find page.now answer }
{
    let mut at = 0;
    for _ in 0..answer {
        at = answer_at(page, at)?.end;
    }
    answer_at(page, at)
}

// That answer's words, its header too, as a part of the page itself; an empty part where `find` refuses.
pub fn view(page: &[u32], answer: u32) -> &[u32]
    ensures { (result.now ≡ view page.now answer) × (result.ref_ptr ≡ part_ptr page.entry.ref_ptr (find page.now answer)) }
{
    match find(page, answer) {
        Ok(part) => &page[part.start..part.end],
        Err(_) => &page[..0],
    }
}
