// The lines of one answer: which of them stay. A dropped or repeated line needs no room, not even for a moment.
// How far an answer is written is one number, `at`: where its next line goes, beyond `end` once a line did not fit.
ghost use Rattle.std.specs.Prelude.{◌≡◌, List, [], ◌∷◌, ℕ};
ghost use Rattle.word.specs.Kind.{kind_number};
ghost use Rattle.semantics.specs.Answer.{line_in, line_words, same_words, any_same, Line, typed_lines, lacks_each};
ghost use Rattle.engine.specs.Term.{Puts};
ghost use Rattle.engine.specs.Line.{LineAs};
ghost use Rattle.engine.specs.Lines.{Stretch, Rows, Writing, Extended, occurrences, AddsAbsent, AddsTyped};

use crate::terms::walk::{Shape, follow};
use crate::writer::line::{Listed, line_named, put_line};
use word::{Kind, Word};

// Whether the line has the words from `place` up to `next`.
pub(crate) fn same_line(
    program: &[u32],
    scratch: &[u32],
    output: &mut [u32],
    line: Listed,
    place: usize,
    next: usize,
) -> bool
    requires { (l : Line) × (names : List ℕ) × LineAs program.now scratch.now line l × Puts scratch.now output.old place next names (line_in names l) }
    ensures { (output.new ≡ output.old) × ((l : Line) (names w : List ℕ) → LineAs program.now scratch.now line l
        → Puts scratch.now output.old place next names (line_in names l) → Stretch output.old place next w → result ≡ same_words (line_words names l) w) }
{
    put_line(program, scratch, output, line, place, next, false) == Some(next)
}

// Whether the line has the same words as an earlier one of this answer.
pub(crate) fn line_repeated(
    program: &[u32],
    scratch: &[u32],
    output: &mut [u32],
    line: Listed,
    first: usize,
    at: usize,
) -> bool
    requires { (ws : List (List ℕ)) × (l : Line) × (names : List ℕ) × Rows output.old first at ws × LineAs program.now scratch.now line l
        × Puts scratch.now output.old first at names (line_in names l) }
    ensures { (output.new ≡ output.old) × ((ws : List (List ℕ)) (l : Line) (names : List ℕ) → Rows output.old first at ws
        → LineAs program.now scratch.now line l → Puts scratch.now output.old first at names (line_in names l)
        → result ≡ any_same (line_words names l) ws) }
{
    let mut place = first;
    while place < at {
        let size = Word::from_bits(output[place]).payload() as usize;
        let next = place + 1 + size;
        if same_line(program, scratch, output, line, place, next) {
            return true;
        }
        place = next;
    }
    false
}

// One line more, unless it is dropped or repeats an earlier one.
pub(crate) fn add_line(
    program: &[u32],
    scratch: &[u32],
    output: &mut [u32],
    line: Listed,
    first: usize,
    end: usize,
    at: usize,
) -> usize
    requires { Writing scratch.now output.old first end at × ((l : Line) × LineAs program.now scratch.now line l) }
    ensures { (g : Writing scratch.now output.old first end at) (l : Line)
        → LineAs program.now scratch.now line l → Extended g output.new result (l ∷ []) }
{
    if end < at {
        return at;
    }
    if !line_named(program, scratch, line) {
        return at;
    }
    if line_repeated(program, scratch, output, line, first, at) {
        return at;
    }
    put_line(program, scratch, output, line, at, end, true).unwrap_or(end + 1)
}

// A type on an open variable; on anything else it holds already.
pub(crate) fn add_typed(
    program: &[u32],
    scratch: &[u32],
    output: &mut [u32],
    kind: Kind,
    term: u32,
    first: usize,
    end: usize,
    at: usize,
) -> usize
    requires { AddsTyped program.now scratch.now output.old (kind_number kind) term first end at }
    ensures { (g : AddsTyped program.now scratch.now output.old (kind_number kind) term first end at)
        → Extended g.writing output.new result (typed_lines g.sort g.term) }
{
    if let Shape::Open(x) = follow(program, scratch, term) {
        let line = Listed::Typed(kind, x);
        return add_line(program, scratch, output, line, first, end, at);
    }
    at
}

// An absence for each open variable where it stands: one that stands there again repeats its line.
pub(crate) fn add_absent(
    program: &[u32],
    scratch: &[u32],
    output: &mut [u32],
    tag: u32,
    term: u32,
    first: usize,
    end: usize,
    at: usize,
) -> usize
    requires { AddsAbsent program.now scratch.now output.old tag term first end at }
    ensures { (g : AddsAbsent program.now scratch.now output.old tag term first end at)
        → Extended g.writing output.new result (lacks_each g.tag_of (occurrences g.term)) }
{
    let mut from = term;
    let mut place = at;
    loop {
        match follow(program, scratch, from) {
            Shape::Open(x) => {
                let line = Listed::Lacks(tag, x);
                return add_line(program, scratch, output, line, first, end, place);
            }
            Shape::Atom(_) => {
                return place;
            }
            Shape::Pair(a, b) => {
                place = add_absent(program, scratch, output, tag, a, first, end, place);
                from = b;
            }
        }
    }
}
