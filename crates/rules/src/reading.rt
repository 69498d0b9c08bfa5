// Conditions 2 to 6: one reading of the words from word 0 up, to the first fault.
ghost use Rattle.std.specs.Prelude.{◌≡◌, ◌+◌, ◌-◌, ◌*◌, ◌≤◌, ◌<◌, length};
ghost use Rattle.word.specs.Kind.{kind_number};
ghost use Rattle.rules.specs.Reading.{goal_kind, read_word, read_leaf, read_term, read_one, read_two, read_terms, read_tag, read_absento, read_call, read_goal, read_goals, read_body, read_variables, read_relation, read_relations};
ghost use Rattle.rules.specs.Inner.{told, outcome, ends, filled_told, Settles};

use crate::part::{Part, part_at};
use crate::{Condition, Refusal};
use word::Kind;

// A word of one kind at `at`, before `end`. Like every reader here it gives the place after what it reads.
fn read_word(program: &[u32], kind: Kind, at: usize, end: usize) -> Result<usize, Refusal>
    requires { end ≤ length program.now }
    ensures { outcome result ≡ told (read_word (kind_number kind) program.now at end) }
{
    if end <= at {
        return Err(Condition::WrongExtent.at(end));
    }
    if part_at(program, at).kind != kind {
        return Err(Condition::WrongKind.at(at));
    }
    Ok(at + 1)
}

// What ends at `next` has to fill its part: a word left over is a fault, whatever it is.
fn fill(next: usize, end: usize) -> Result<usize, Refusal>
    ensures { outcome result ≡ filled_told (ends next) end }
{
    if next < end {
        return Err(Condition::WrongExtent.at(next));
    }
    Ok(next)
}

// A variable or an atom.
fn read_leaf(part: Part, vars: usize, at: usize) -> Result<usize, Refusal>
    requires { (kind_number part.kind < 4) × (at < 18446744073709551615) }
    ensures { outcome result ≡ told (read_leaf (kind_number part.kind) part.size vars at) }
{
    match part.kind {
        Kind::Variable if vars <= part.size => Err(Condition::UnknownVariable.at(at)),
        Kind::Empty if part.size != 0 => Err(Condition::WrongExtent.at(at)),
        _ => Ok(at + 1),
    }
}

// A term. First parts are read by recursion and second parts by the loop, so that a long list needs no stack.
fn read_term(program: &[u32], vars: usize, start: usize, end: usize) -> Result<usize, Refusal>
    requires { end ≤ length program.now }
    ensures { Settles (λ f. read_term f program.now vars start end) (end - start) (outcome result) }
{
    let mut at = start;
    loop {
        if end <= at {
            return Err(Condition::WrongExtent.at(end));
        }
        let part = part_at(program, at);
        if Kind::Pair < part.kind {
            return Err(Condition::WrongKind.at(at));
        }
        if part.kind != Kind::Pair {
            return read_leaf(part, vars, at);
        }
        if end - (at + 1) < part.size {
            return Err(Condition::WrongExtent.at(at));
        }
        let second = at + 1 + part.size;
        fill(read_term(program, vars, at + 1, second)?, second)?;
        at = second;
    }
}

// One term that fills its part.
fn read_one(program: &[u32], vars: usize, at: usize, end: usize) -> Result<usize, Refusal>
    requires { end ≤ length program.now }
    ensures { Settles (λ f. read_one f program.now vars at end) (end - at) (outcome result) }
{
    fill(read_term(program, vars, at, end)?, end)
}

// Two terms that fill their part.
fn read_two(program: &[u32], vars: usize, at: usize, end: usize) -> Result<usize, Refusal>
    requires { end ≤ length program.now }
    ensures { Settles (λ f. read_two f program.now vars at end) (end - at) (outcome result) }
{
    let next = read_term(program, vars, at, end)?;
    read_one(program, vars, next, end)
}

// Terms up to the end of their part.
fn read_terms(program: &[u32], vars: usize, start: usize, end: usize) -> Result<usize, Refusal>
    requires { end ≤ length program.now }
    ensures { Settles (λ f. read_terms f program.now vars start end) (end - start + 1) (outcome result) }
{
    let mut at = start;
    while at < end {
        at = read_term(program, vars, at, end)?;
    }
    Ok(at)
}

// The tag of an absento: a symbol or a number.
fn read_tag(program: &[u32], at: usize, end: usize) -> Result<usize, Refusal>
    requires { end ≤ length program.now }
    ensures { outcome result ≡ told (read_tag program.now at end) }
{
    read_word(program, Kind::Symbol, at, end).or_else(|_| read_word(program, Kind::Number, at, end))
}

// The tag and the term of an absento.
fn read_absento(program: &[u32], vars: usize, at: usize, end: usize) -> Result<usize, Refusal>
    requires { end ≤ length program.now }
    ensures { Settles (λ f. read_absento f program.now vars at end) (end - at) (outcome result) }
{
    let next = read_tag(program, at, end)?;
    read_one(program, vars, next, end)
}

// The relation's number and the arguments of a call.
fn read_call(program: &[u32], vars: usize, at: usize, end: usize) -> Result<usize, Refusal>
    requires { end ≤ length program.now }
    ensures { Settles (λ f. read_call f program.now vars at end) (end - at) (outcome result) }
{
    let next = read_word(program, Kind::Number, at, end)?;
    read_terms(program, vars, next, end)
}

// Does a goal begin with a word of this kind?
fn begins_goal(kind: Kind) -> bool
    ensures { result ≡ goal_kind (kind_number kind) }
{
    Kind::Equal <= kind && kind <= Kind::Call
}

// A goal.
#[cycle(read_goal_read_goals)]
fn read_goal(program: &[u32], vars: usize, at: usize, end: usize) -> Result<usize, Refusal>
    requires { end ≤ length program.now }
    ensures { Settles (λ f. read_goal f program.now vars at end) (2 * (end - at) + 1) (outcome result) }
{
    if end <= at {
        return Err(Condition::WrongExtent.at(end));
    }
    let part = part_at(program, at);
    if !begins_goal(part.kind) {
        return Err(Condition::WrongKind.at(at));
    }
    if end - (at + 1) < part.size {
        return Err(Condition::WrongExtent.at(at));
    }
    let stop = at + 1 + part.size;
    match part.kind {
        Kind::Equal | Kind::Differ => read_two(program, vars, at + 1, stop),
        Kind::Symbolo | Kind::Numbero => read_one(program, vars, at + 1, stop),
        Kind::Absento => read_absento(program, vars, at + 1, stop),
        Kind::Call => read_call(program, vars, at + 1, stop),
        _ => read_goals(program, vars, at + 1, stop),
    }
}

// Goals, one or more, up to the end of their part.
#[cycle(read_goal_read_goals)]
fn read_goals(program: &[u32], vars: usize, start: usize, end: usize) -> Result<usize, Refusal>
    requires { end ≤ length program.now }
    ensures { Settles (λ f. read_goals f program.now vars start end) (2 * (end - start) + 2) (outcome result) }
{
    let mut at = start;
    loop {
        at = read_goal(program, vars, at, end)?;
        if end <= at {
            return Ok(at);
        }
    }
}

// A goal that fills its part.
fn read_body(program: &[u32], vars: usize, at: usize, end: usize) -> Result<usize, Refusal>
    requires { end ≤ length program.now }
    ensures { Settles (λ f. read_body f program.now vars at end) (2 * (end - at) + 1) (outcome result) }
{
    fill(read_goal(program, vars, at, end)?, end)
}

// The variables word and the goal of a relation with `params` parameters.
fn read_variables(program: &[u32], params: usize, at: usize, end: usize) -> Result<usize, Refusal>
    requires { end ≤ length program.now }
    ensures { Settles (λ f. read_variables f program.now params at end) (2 * (end - at) + 1) (outcome result) }
{
    let next = read_word(program, Kind::Number, at, end)?;
    let vars = part_at(program, at).size;
    if 255 < vars || vars < params {
        return Err(Condition::VariableCount.at(at));
    }
    read_body(program, vars, next, end)
}

// The relation that starts at `at`, after `before` others.
fn read_relation(program: &[u32], before: usize, at: usize) -> Result<usize, Refusal>
    requires { at < length program.now }
    ensures { Settles (λ f. read_relation f program.now before at) (2 * (length program.now - at) + 1) (outcome result) }
{
    let part = part_at(program, at);
    if part.kind != Kind::Relation {
        return Err(Condition::WrongKind.at(at));
    }
    if program.len() - (at + 1) < part.size {
        return Err(Condition::WrongExtent.at(at));
    }
    if 256 <= before {
        return Err(Condition::RelationCount.at(at));
    }
    let end = at + 1 + part.size;
    let next = read_word(program, Kind::Number, at + 1, end)?;
    let params = part_at(program, at + 1).size;
    read_variables(program, params, next, end)
}

// All relations.
pub(crate) fn read_relations(program: &[u32]) -> Result<usize, Refusal>
    ensures { Settles (λ f. read_relations f program.now 0 0) (2 * length program.now + 2) (outcome result) }
{
    let mut at = 0;
    let mut before = 0;
    while at < program.len() {
        at = read_relation(program, before, at)?;
        before += 1;
    }
    Ok(at)
}
