// Names: the writer's numbers of open variables, by first appearance.
//
// `top` is the number of names, and 4,096 times the variable named last plus 1; 0 if there is none. The word of a variable that has a name is the `top`
// before it, plus 1: its number plus 1 in the low 12 bits, and the way back to the variable named before. So clearing goes from name to name.
ghost use Rattle.std.specs.Prelude.{◌≡◌, List, [], ℕ, ◌≤◌, ◌<◌, length};
ghost use Rattle.rules.specs.Syntax.{Term, var};
ghost use Rattle.rules.specs.Settings.{scratch_words};
ghost use Rattle.semantics.specs.Answer.{appear, vars_in};
ghost use Rattle.semantics.specs.Unify.{member};
ghost use Rattle.engine.specs.Layout.{most_variables};
ghost use Rattle.engine.specs.Walk.{Resolves};
ghost use Rattle.engine.specs.Names.{Names, NamesGiven, Named};

use crate::layout::NAMES;
use crate::terms::walk::{Shape, follow};

// Names variable `x`, unless it has a name.
pub(crate) fn name_variable(scratch: &mut [u32], x: u32, top: u32) -> u32
    requires { (scratch_words ≤ length scratch.old) × (x < most_variables) × ((names : List ℕ) × Names scratch.old top names) }
    ensures { (names : List ℕ) → Names scratch.old top names → Named scratch.old scratch.new result (appear names (var x)) }
{
    let at = NAMES + x as usize;
    if scratch[at] != 0 {
        return top;
    }
    scratch[at] = top + 1;
    top % 4096 + 1 + 4096 * (x + 1)
}

// Names the open variables of a term.
pub(crate) fn name_term(program: &[u32], scratch: &mut [u32], term: u32, top: u32) -> u32
    requires { (t : Term) × (names : List ℕ) × Resolves program.now scratch.old term t × Names scratch.old top names }
    ensures { (t : Term) (names : List ℕ) → Resolves program.now scratch.old term t → Names scratch.old top names
        → Named scratch.old scratch.new result (appear names t) }
{
    let mut at = term;
    let mut given = top;
    loop {
        match follow(program, scratch, at) {
            Shape::Open(x) => {
                return name_variable(scratch, x, given);
            }
            Shape::Atom(_) => {
                return given;
            }
            Shape::Pair(first, second) => {
                given = name_term(program, scratch, first, given);
                at = second;
            }
        }
    }
}

// Takes all names back.
pub(crate) fn clear_names(scratch: &mut [u32], top: u32)
    requires { (scratch_words ≤ length scratch.old) × ((names : List ℕ) × Names scratch.old top names) }
    ensures { (names : List ℕ) → Names scratch.old top names → Named scratch.old scratch.new 0 [] }
{
    let mut last = top;
    while last != 0 {
        let at = NAMES + (last / 4096 - 1) as usize;
        last = scratch[at] - 1;
        scratch[at] = 0;
    }
}

// Whether variable `x` has a name.
pub(crate) fn has_name(scratch: &[u32], x: u32) -> bool
    requires { (scratch_words ≤ length scratch.now) × (x < most_variables) }
    ensures { (names : List ℕ) → NamesGiven scratch.now names → result ≡ member x names }
{
    scratch[NAMES + x as usize] != 0
}

// Whether every open variable of a term has a name.
pub(crate) fn all_named(program: &[u32], scratch: &[u32], term: u32) -> bool
    requires { (t : Term) × (names : List ℕ) × Resolves program.now scratch.now term t × NamesGiven scratch.now names }
    ensures { (t : Term) (names : List ℕ) → Resolves program.now scratch.now term t → NamesGiven scratch.now names → result ≡ vars_in names t }
{
    let mut at = term;
    loop {
        match follow(program, scratch, at) {
            Shape::Open(x) => {
                return has_name(scratch, x);
            }
            Shape::Atom(_) => {
                return true;
            }
            Shape::Pair(first, second) => {
                if !all_named(program, scratch, first) {
                    return false;
                }
                at = second;
            }
        }
    }
}
