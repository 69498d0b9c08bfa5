// Words of an answer. With `write` they are stored; without it they are compared with those that are there already, and nothing is stored.
// A place is always below `end`, so that what does not fit is missed and never counted. What is told is the place after the words, or nothing where they do not fit, or are not there.
ghost use Rattle.std.specs.Prelude.{List, [], ◌∷◌, ℕ, ◌≤◌, ◌<◌, ◌+◌, length};
ghost use Rattle.word.specs.Kind.{kind_number};
ghost use Rattle.rules.specs.Syntax.{Term, var};
ghost use Rattle.rules.specs.Written.{part, term_words};
ghost use Rattle.semantics.specs.Answer.{index, reify, vars_in};
ghost use Rattle.semantics.specs.Unify.{member};
ghost use Rattle.engine.specs.Layout.{most_variables};
ghost use Rattle.engine.specs.Walk.{Resolves};
ghost use Rattle.engine.specs.Term.{Room, Puts, WordPut, Laid, Placed};

use crate::layout::NAMES;
use crate::terms::walk::{Shape, follow};
use word::{Kind, Word};

pub(crate) fn put_word(output: &mut [u32], at: usize, bits: u32, write: bool) -> bool
    requires { at < length output.old }
    ensures { WordPut output.old output.new at bits write result }
{
    if write {
        output[at] = bits;
        return true;
    }
    output[at] == bits
}

// One word, if there is room.
pub(crate) fn put_one(
    output: &mut [u32],
    at: usize,
    end: usize,
    bits: u32,
    write: bool,
) -> Option<usize>
    requires { end ≤ length output.old }
    ensures { at ≤ end → Placed output.old output.new at end write (bits ∷ []) result }
{
    if end <= at {
        return None;
    }
    put_word(output, at, bits, write).then_some(at + 1)
}

// The word of a part that ends at `next`, once what it counts is put.
pub(crate) fn put_head(
    output: &mut [u32],
    start: usize,
    next: usize,
    kind: Kind,
    write: bool,
) -> Option<usize>
    requires { (start < next) × Room output.old next }
    ensures { (o : List ℕ) (end : ℕ) (v : List ℕ) → Laid o output.old (start + 1) end write v next
        → Placed o output.new start end write (part (kind_number kind) v) result }
{
    let size = (next - start - 1) as u32;
    put_word(output, start, Word::of_kind(kind, size).bits, write).then_some(next)
}

// A variable that has a name.
pub(crate) fn put_variable(
    scratch: &[u32],
    output: &mut [u32],
    x: u32,
    at: usize,
    end: usize,
    write: bool,
) -> Option<usize>
    requires { (x < most_variables) × ((names : List ℕ) × Puts scratch.now output.old at end names (member x names)) }
    ensures { (names : List ℕ) → Puts scratch.now output.old at end names (member x names)
        → Placed output.old output.new at end write (term_words (var (index x names))) result }
{
    let number = scratch[NAMES + x as usize] % 4096 - 1;
    put_one(
        output,
        at,
        end,
        Word::of_kind(Kind::Variable, number).bits,
        write,
    )
}

// A term whose open variables have names.
pub(crate) fn put_term(
    program: &[u32],
    scratch: &[u32],
    output: &mut [u32],
    term: u32,
    start: usize,
    end: usize,
    write: bool,
) -> Option<usize>
    requires { (t : Term) × (names : List ℕ) × Resolves program.now scratch.now term t × Puts scratch.now output.old start end names (vars_in names t) }
    ensures { (t : Term) (names : List ℕ) → Resolves program.now scratch.now term t
        → Puts scratch.now output.old start end names (vars_in names t)
        → Placed output.old output.new start end write (term_words (reify names t)) result }
{
    let mut from = term;
    let mut at = start;
    loop {
        // Nothing is followed that has no room: a line is compared with each earlier one, within its length.
        if end <= at {
            return None;
        }
        match follow(program, scratch, from) {
            Shape::Open(x) => {
                return put_variable(scratch, output, x, at, end, write);
            }
            Shape::Atom(bits) => {
                return put_one(output, at, end, bits, write);
            }
            Shape::Pair(first, second) => {
                let next = put_term(program, scratch, output, first, at + 1, end, write)?;
                at = put_head(output, at, next, Kind::Pair, write)?;
                from = second;
            }
        }
    }
}
