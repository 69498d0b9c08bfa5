// Reviews of constraints: does one fail?
ghost use Rattle.std.specs.Prelude.{◌≡◌, List, []};
ghost use Rattle.rules.specs.Syntax.{Term, Sort, Atom, Constraint, absento};
ghost use Rattle.semantics.specs.Substitution.{Substitution, walk};
ghost use Rattle.semantics.specs.Steps.{and_then, done};
ghost use Rattle.semantics.specs.Unify as unification;
ghost use Rattle.semantics.specs.Review as definition;
ghost use Rattle.engine.specs.Unify.{TwoTerms};
ghost use Rattle.word.specs.Kind.{kind_number};
ghost use Rattle.engine.specs.Steps.{outcome};
ghost use Rattle.rules.specs.Written.{sort_kind};
ghost use Rattle.engine.specs.Review.{atom_kind, other_kind, ConstraintsHeld, Constrains, Reviews, Typing, ReviewedAs};

use crate::layout::CONSTRAINTS;
use crate::steps::{NO_STEPS, Stopped};
use crate::terms::scan::scan;
use crate::terms::trail::undo;
use crate::terms::unify::unify;
use crate::terms::walk::{part_at, skip, variable_at, walk};
use word::Kind;

// Is the constraint a type of this kind that reaches the open variable?
fn reaches(program: &[u32], scratch: &[u32], constraint: u32, kind: Kind, variable: u32) -> bool
    requires { (bs : Substitution) × (c : Constraint) × (k : Sort) × Constrains program.now scratch.now bs constraint c × (kind_number kind ≡ other_kind k) }
    ensures { (bs : Substitution) (c : Constraint) (k : Sort) → Constrains program.now scratch.now bs constraint c → kind_number kind ≡ other_kind k
        → result ≡ definition.reaches bs k variable c }
{
    if part_at(program, constraint).kind != kind {
        return false;
    }
    let node = walk(program, scratch, constraint + 1);
    node.kind == Kind::Variable && variable_at(node.at, node.payload) == variable
}

// Does a type of this kind, among the constraints kept, reach the open variable?
fn clashes(
    program: &[u32],
    scratch: &[u32],
    kind: Kind,
    variable: u32,
    trail: u32,
    kept: u32,
) -> bool
    requires { (bs : Substitution) × (cs : List Constraint) × (k : Sort) × ConstraintsHeld program.now scratch.now bs cs trail kept × (kind_number kind ≡ other_kind k) }
    ensures { (bs : Substitution) (cs : List Constraint) (k : Sort) → ConstraintsHeld program.now scratch.now bs cs trail kept → kind_number kind ≡ other_kind k
        → result ≡ definition.clashes bs k variable cs }
{
    for i in 0..kept {
        let constraint = scratch[CONSTRAINTS + i as usize];
        if reaches(program, scratch, constraint, kind, variable) {
            return true;
        }
    }
    false
}

// The kind of the atoms that a type allows, and that of the other type.
#[inline(always)]
fn kinds_of_type(kind: Kind) -> (Kind, Kind)
    ensures { (k : Sort) → kind_number kind ≡ sort_kind k → (kind_number result.0 ≡ atom_kind k) × (kind_number result.1 ≡ other_kind k) }
{
    match kind {
        Kind::Symbolo => (Kind::Symbol, Kind::Numbero),
        _ => (Kind::Number, Kind::Symbolo),
    }
}

// Does a type fail? On an atom of another kind, on a pair, and on an open variable that the other type reaches.
#[inline(always)]
fn type_fails(
    program: &[u32],
    scratch: &[u32],
    term: u32,
    atom: Kind,
    other: Kind,
    trail: u32,
    kept: u32,
) -> bool
    requires { (bs : Substitution) × (cs : List Constraint) × (k : Sort) × (t : Term) × Typing program.now scratch.now bs cs trail kept k term t (kind_number atom) (kind_number other) }
    ensures { (bs : Substitution) (cs : List Constraint) (k : Sort) (t : Term) → Typing program.now scratch.now bs cs trail kept k term t (kind_number atom) (kind_number other)
        → result ≡ definition.sort_fails bs cs k (walk bs t) }
{
    let node = walk(program, scratch, term);
    if node.kind == Kind::Variable {
        let variable = variable_at(node.at, node.payload);
        return clashes(program, scratch, other, variable, trail, kept);
    }
    node.kind != atom
}

// An absento's review: fails if the tag is in the term.
#[inline(always)]
fn review_absento(
    program: &[u32],
    scratch: &[u32],
    constraint: u32,
    left: u32,
) -> Result<(bool, u32), Stopped>
    requires { (bs : Substitution) × (a : Atom) × (t : Term) × Constrains program.now scratch.now bs constraint (absento a t) }
    ensures { (bs : Substitution) (a : Atom) (t : Term) → Constrains program.now scratch.now bs constraint (absento a t)
        → unification.scan (unification.is_atom a) bs [] t left ≡ outcome result }
{
    let tag = part_at(program, constraint + 1).bits;
    scan(program, scratch, tag, constraint + 2, left)
}

// A differ's review: the two terms are unified on trial and the bindings undone. It fails if the trial needs no binding.
fn review_differ(
    program: &[u32],
    scratch: &mut [u32],
    first: u32,
    second: u32,
    trail: u32,
    left: u32,
) -> Result<(bool, u32), Stopped>
    requires { (bs : Substitution) × (u : Term) × (v : Term) × TwoTerms program.now scratch.old bs first u second v trail }
    ensures { (bs : Substitution) (u v : Term) → TwoTerms program.now scratch.old bs first u second v trail
        → ReviewedAs program.now scratch.old scratch.new bs (and_then (unification.unify_terms bs u v left) (λ o l. done (definition.trial_fails bs o) l)) result }
{
    let trial = unify(program, scratch, first, second, trail, left);
    undo(scratch, trail, trial.trail);
    let (joined, rest) = trial.outcome?;
    Ok((joined && trial.trail == trail, rest))
}

// Does the constraint fail? With the steps left: a step, and those of its trial or nodes.
#[inline(always)]
pub(crate) fn review(
    program: &[u32],
    scratch: &mut [u32],
    constraint: u32,
    trail: u32,
    kept: u32,
    steps: u32,
) -> Result<(bool, u32), Stopped>
    requires { (bs : Substitution) × (cs : List Constraint) × (c : Constraint) × Reviews program.now scratch.old bs cs trail kept constraint c }
    ensures { (bs : Substitution) (cs : List Constraint) (c : Constraint) → Reviews program.now scratch.old bs cs trail kept constraint c
        → ReviewedAs program.now scratch.old scratch.new bs (definition.review bs cs c steps) result }
{
    if steps == 0 {
        return Err(NO_STEPS);
    }
    let left = steps - 1;
    let kind = part_at(program, constraint).kind;
    let first = constraint + 1;
    match kind {
        Kind::Differ => {
            let second = skip(program, first);
            review_differ(program, scratch, first, second, trail, left)
        }
        Kind::Absento => review_absento(program, scratch, constraint, left),
        _ => {
            let (atom, other) = kinds_of_type(kind);
            let fails = type_fails(program, scratch, first, atom, other, trail, kept);
            Ok((fails, left))
        }
    }
}

// Does one of the constraints kept fail? They are reviewed in order, up to the first that does.
pub(crate) fn review_all(
    program: &[u32],
    scratch: &mut [u32],
    trail: u32,
    kept: u32,
    steps: u32,
) -> Result<(bool, u32), Stopped>
    requires { (bs : Substitution) × (cs : List Constraint) × ConstraintsHeld program.now scratch.old bs cs trail kept }
    ensures { (bs : Substitution) (cs : List Constraint) → ConstraintsHeld program.now scratch.old bs cs trail kept
        → ReviewedAs program.now scratch.old scratch.new bs (definition.review_all bs cs cs steps) result }
{
    let mut left = steps;
    for i in 0..kept {
        let constraint = scratch[CONSTRAINTS + i as usize];
        let (fails, rest) = review(program, scratch, constraint, trail, kept, left)?;
        left = rest;
        if fails {
            return Ok((true, left));
        }
    }
    Ok((false, left))
}
