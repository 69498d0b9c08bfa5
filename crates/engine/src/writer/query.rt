// Query terms. A parameter's word need not stand in the program, so it is known by its number: it is open, or what it is bound to is its term.
ghost use Rattle.std.specs.Prelude.{true, List, [], ℕ, ◌≤◌, ◌<◌};
ghost use Rattle.rules.specs.Syntax.{var};
ghost use Rattle.rules.specs.Written.{term_words};
ghost use Rattle.semantics.specs.Substitution.{Substitution, resolve};
ghost use Rattle.semantics.specs.Answer.{appear, reify, vars_in, names_of, parameters};
ghost use Rattle.engine.specs.Layout.{most_variables};
ghost use Rattle.engine.specs.Walk.{Binds};
ghost use Rattle.engine.specs.Names.{Names, Named};
ghost use Rattle.engine.specs.Term.{Room, Puts, Placed};
ghost use Rattle.engine.specs.Look.{LookedThroughAs, ThroughAs};
ghost use Rattle.engine.specs.Query.{Query, query_words};

use crate::steps::{NO_STEPS, Stopped};
use crate::writer::look::look_through;
use crate::writer::names::{name_term, name_variable};
use crate::writer::term::{put_term, put_variable};

pub(crate) fn look_parameter(
    program: &[u32],
    scratch: &[u32],
    x: u32,
    steps: u32,
) -> Result<u32, Stopped>
    requires { (x < most_variables) × ((bs : Substitution) × Binds program.now scratch.now bs) }
    ensures { (bs : Substitution) → Binds program.now scratch.now bs → LookedThroughAs bs (var x) steps result }
{
    let entry = scratch[x as usize];
    if entry != 0 {
        return look_through(program, scratch, entry - 1, steps);
    }
    if steps == 0 {
        return Err(NO_STEPS);
    }
    Ok(steps - 1)
}

pub(crate) fn name_parameter(program: &[u32], scratch: &mut [u32], x: u32, top: u32) -> u32
    requires { (x < most_variables) × ((bs : Substitution) × (names : List ℕ) × Binds program.now scratch.old bs × Names scratch.old top names) }
    ensures { (bs : Substitution) (names : List ℕ) → Binds program.now scratch.old bs → Names scratch.old top names
        → Named scratch.old scratch.new result (appear names (resolve bs (var x))) }
{
    let entry = scratch[x as usize];
    if entry == 0 {
        return name_variable(scratch, x, top);
    }
    name_term(program, scratch, entry - 1, top)
}

pub(crate) fn put_parameter(
    program: &[u32],
    scratch: &[u32],
    output: &mut [u32],
    x: u32,
    start: usize,
    end: usize,
) -> Option<usize>
    requires { (x < most_variables) × ((bs : Substitution) × (names : List ℕ) × Binds program.now scratch.now bs
        × Puts scratch.now output.old start end names (vars_in names (resolve bs (var x)))) }
    ensures { (bs : Substitution) (names : List ℕ) → Binds program.now scratch.now bs
        → Puts scratch.now output.old start end names (vars_in names (resolve bs (var x)))
        → Placed output.old output.new start end true (term_words (reify names (resolve bs (var x)))) result }
{
    let entry = scratch[x as usize];
    if entry == 0 {
        return put_variable(scratch, output, x, start, end, true);
    }
    put_term(program, scratch, output, entry - 1, start, end, true)
}

// All parameters, one after the other.
pub(crate) fn look_parameters(
    program: &[u32],
    scratch: &[u32],
    count: u32,
    steps: u32,
) -> Result<u32, Stopped>
    requires { (count ≤ most_variables) × ((bs : Substitution) × Binds program.now scratch.now bs) }
    ensures { (bs : Substitution) → Binds program.now scratch.now bs → ThroughAs bs (parameters 0 count) steps result }
{
    let mut left = steps;
    for x in 0..count {
        left = look_parameter(program, scratch, x, left)?;
    }
    Ok(left)
}

pub(crate) fn name_parameters(program: &[u32], scratch: &mut [u32], count: u32) -> u32
    requires { (count ≤ most_variables) × ((bs : Substitution) × Binds program.now scratch.old bs × Names scratch.old 0 []) }
    ensures { (bs : Substitution) → Binds program.now scratch.old bs → Names scratch.old 0 []
        → Named scratch.old scratch.new result (names_of bs count) }
{
    let mut top = 0;
    for x in 0..count {
        top = name_parameter(program, scratch, x, top);
    }
    top
}

pub(crate) fn put_parameters(
    program: &[u32],
    scratch: &[u32],
    output: &mut [u32],
    count: u32,
    start: usize,
    end: usize,
) -> Option<usize>
    requires { (start ≤ end) × Room output.old end × (count ≤ most_variables) × ((bs : Substitution) × (names : List ℕ) × Query program.now scratch.now count bs names) }
    ensures { (bs : Substitution) (names : List ℕ) → Query program.now scratch.now count bs names
        → Placed output.old output.new start end true (query_words bs names 0 count) result }
{
    let mut at = start;
    for x in 0..count {
        at = put_parameter(program, scratch, output, x, at, end)?;
    }
    Some(at)
}
