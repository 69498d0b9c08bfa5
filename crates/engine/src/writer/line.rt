// One line of an answer.
ghost use Rattle.std.specs.Prelude.{◌≡◌, List, ◌∷◌, ℕ, ◌≤◌, ◌<◌, ◌+◌, length};
ghost use Rattle.word.specs.Kind.{kind_number};
ghost use Rattle.rules.specs.Syntax.{Term, var};
ghost use Rattle.rules.specs.Written.{part, term_words};
ghost use Rattle.rules.specs.Settings.{scratch_words};
ghost use Rattle.semantics.specs.Answer.{index, bindings_in, line_in, line_words, Line, not_all};
ghost use Rattle.semantics.specs.Unify.{member};
ghost use Rattle.engine.specs.Layout.{most_variables};
ghost use Rattle.engine.specs.Names.{NamesGiven};
ghost use Rattle.engine.specs.Term.{Puts, Placed};
ghost use Rattle.engine.specs.Line.{half, Equation, EquationsIn, equation_in, equation_words, equations_words, LineAs};

use crate::layout::{PAIRS, TRAIL};
use crate::writer::names::{all_named, has_name};
use crate::writer::term::{put_head, put_one, put_term, put_variable};
use word::{Kind, Word};

// A type's kind and the variable; absento's tag and the variable; a trial's mark and how many equations it has.
#[derive(Clone, Copy)]
pub enum Listed {
    Typed(Kind, u32),
    Lacks(u32, u32),
    Differ(usize, usize),
}

// The variable of equation `i`.
pub(crate) fn equation_variable(scratch: &[u32], i: usize) -> u32
    requires { (scratch_words ≤ length scratch.now) × (i < most_variables) }
    ensures { result ≡ half scratch.now i }
{
    let bits = scratch[PAIRS + i / 2];
    if i % 2 == 0 {
        return bits % 65536;
    }
    bits / 65536
}

// Equation `i` of a trial.
pub(crate) fn put_equation(
    program: &[u32],
    scratch: &[u32],
    output: &mut [u32],
    mark: usize,
    i: usize,
    start: usize,
    end: usize,
    write: bool,
) -> Option<usize>
    requires { (mark + i < most_variables) × ((b : ℕ × Term) × (names : List ℕ) × Equation program.now scratch.now mark i b
        × Puts scratch.now output.old start end names (equation_in names b)) }
    ensures { (b : ℕ × Term) (names : List ℕ) → Equation program.now scratch.now mark i b
        → Puts scratch.now output.old start end names (equation_in names b)
        → Placed output.old output.new start end write (equation_words names b) result }
{
    if end <= start {
        return None;
    }
    let x = equation_variable(scratch, i);
    let middle = put_variable(scratch, output, x, start + 1, end, write)?;
    let right = scratch[TRAIL + mark + i];
    let next = put_term(program, scratch, output, right, middle, end, write)?;
    put_head(output, start, next, Kind::Differ, write)
}

// The first `count` equations, one after the other.
pub(crate) fn put_equations(
    program: &[u32],
    scratch: &[u32],
    output: &mut [u32],
    mark: usize,
    count: usize,
    start: usize,
    end: usize,
    write: bool,
) -> Option<usize>
    requires { (cs : List (ℕ × Term)) × (names : List ℕ) × EquationsIn program.now scratch.now mark count cs
        × Puts scratch.now output.old start end names (bindings_in names cs) }
    ensures { (cs : List (ℕ × Term)) (names : List ℕ) → EquationsIn program.now scratch.now mark count cs
        → Puts scratch.now output.old start end names (bindings_in names cs)
        → Placed output.old output.new start end write (equations_words names cs) result }
{
    let mut at = start;
    for i in 0..count {
        at = put_equation(program, scratch, output, mark, i, at, end, write)?;
    }
    Some(at)
}

// A type.
pub(crate) fn put_typed(
    scratch: &[u32],
    output: &mut [u32],
    kind: Kind,
    x: u32,
    start: usize,
    end: usize,
    write: bool,
) -> Option<usize>
    requires { (x < most_variables) × ((names : List ℕ) × Puts scratch.now output.old start end names (member x names)) }
    ensures { (names : List ℕ) → Puts scratch.now output.old start end names (member x names)
        → Placed output.old output.new start end write (part (kind_number kind) (term_words (var (index x names)))) result }
{
    let next = put_one(output, start, end, Word::of_kind(kind, 1).bits, write)?;
    put_variable(scratch, output, x, next, end, write)
}

// An absence.
pub(crate) fn put_lacks(
    scratch: &[u32],
    output: &mut [u32],
    tag: u32,
    x: u32,
    start: usize,
    end: usize,
    write: bool,
) -> Option<usize>
    requires { (x < most_variables) × ((names : List ℕ) × Puts scratch.now output.old start end names (member x names)) }
    ensures { (names : List ℕ) → Puts scratch.now output.old start end names (member x names)
        → Placed output.old output.new start end write (part 9 (tag ∷ term_words (var (index x names)))) result }
{
    let second = put_one(
        output,
        start,
        end,
        Word::of_kind(Kind::Absento, 2).bits,
        write,
    )?;
    let third = put_one(output, second, end, tag, write)?;
    put_variable(scratch, output, x, third, end, write)
}

// A disequality: several equations are put under one word.
pub(crate) fn put_differ(
    program: &[u32],
    scratch: &[u32],
    output: &mut [u32],
    mark: usize,
    count: usize,
    start: usize,
    end: usize,
    write: bool,
) -> Option<usize>
    requires { (b : ℕ × Term) × (cs : List (ℕ × Term)) × (names : List ℕ) × EquationsIn program.now scratch.now mark count (b ∷ cs)
        × Puts scratch.now output.old start end names (bindings_in names (b ∷ cs)) }
    ensures { (b : ℕ × Term) (cs : List (ℕ × Term)) (names : List ℕ) → EquationsIn program.now scratch.now mark count (b ∷ cs)
        → Puts scratch.now output.old start end names (bindings_in names (b ∷ cs))
        → Placed output.old output.new start end write (line_words names (not_all (b ∷ cs))) result }
{
    if count == 1 {
        return put_equations(program, scratch, output, mark, count, start, end, write);
    }
    if end <= start {
        return None;
    }
    let next = put_equations(program, scratch, output, mark, count, start + 1, end, write)?;
    put_head(output, start, next, Kind::Disjunction, write)
}

// A line whose variables have names.
pub(crate) fn put_line(
    program: &[u32],
    scratch: &[u32],
    output: &mut [u32],
    line: Listed,
    start: usize,
    end: usize,
    write: bool,
) -> Option<usize>
    requires { (l : Line) × (names : List ℕ) × LineAs program.now scratch.now line l × Puts scratch.now output.old start end names (line_in names l) }
    ensures { (l : Line) (names : List ℕ) → LineAs program.now scratch.now line l
        → Puts scratch.now output.old start end names (line_in names l)
        → Placed output.old output.new start end write (line_words names l) result }
{
    match line {
        Listed::Typed(kind, x) => put_typed(scratch, output, kind, x, start, end, write),
        Listed::Lacks(tag, x) => put_lacks(scratch, output, tag, x, start, end, write),
        Listed::Differ(mark, count) => {
            put_differ(program, scratch, output, mark, count, start, end, write)
        }
    }
}

// Whether every variable of equation `i` has a name.
pub(crate) fn equation_named(program: &[u32], scratch: &[u32], mark: usize, i: usize) -> bool
    requires { (mark + i < most_variables) × ((b : ℕ × Term) × (names : List ℕ) × Equation program.now scratch.now mark i b × NamesGiven scratch.now names) }
    ensures { (b : ℕ × Term) (names : List ℕ) → Equation program.now scratch.now mark i b → NamesGiven scratch.now names
        → result ≡ equation_in names b }
{
    let x = equation_variable(scratch, i);
    has_name(scratch, x) && all_named(program, scratch, scratch[TRAIL + mark + i])
}

// Of the first `count` equations.
pub(crate) fn equations_named(program: &[u32], scratch: &[u32], mark: usize, count: usize) -> bool
    requires { (cs : List (ℕ × Term)) × (names : List ℕ) × EquationsIn program.now scratch.now mark count cs × NamesGiven scratch.now names }
    ensures { (cs : List (ℕ × Term)) (names : List ℕ) → EquationsIn program.now scratch.now mark count cs → NamesGiven scratch.now names
        → result ≡ bindings_in names cs }
{
    for i in 0..count {
        if !equation_named(program, scratch, mark, i) {
            return false;
        }
    }
    true
}

// Of a line. One that mentions a variable with no name is dropped.
pub(crate) fn line_named(program: &[u32], scratch: &[u32], line: Listed) -> bool
    requires { (l : Line) × (names : List ℕ) × LineAs program.now scratch.now line l × NamesGiven scratch.now names }
    ensures { (l : Line) (names : List ℕ) → LineAs program.now scratch.now line l → NamesGiven scratch.now names
        → result ≡ line_in names l }
{
    match line {
        Listed::Typed(_, x) | Listed::Lacks(_, x) => has_name(scratch, x),
        Listed::Differ(mark, count) => equations_named(program, scratch, mark, count),
    }
}
