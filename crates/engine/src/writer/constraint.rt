// The lines of the path's constraints, in order.
ghost use Rattle.std.specs.Prelude.{◌≡◌, List, ℕ};
ghost use Rattle.word.specs.Kind.{kind_number};
ghost use Rattle.rules.specs.Syntax.{Atom, Term, Sort, Constraint, differ, typed, absento};
ghost use Rattle.rules.specs.Written.{sort_kind};
ghost use Rattle.semantics.specs.Substitution.{Substitution};
ghost use Rattle.semantics.specs.Answer.{lines_of, all_lines};
ghost use Rattle.semantics.specs.Invariant.{Sound};
ghost use Rattle.engine.specs.Reference.{KeepsAt};
ghost use Rattle.engine.specs.Walk.{Binds, Follows};
ghost use Rattle.engine.specs.Review.{ConstraintsHeld};
ghost use Rattle.engine.specs.Lines.{Writing};
ghost use Rattle.engine.specs.Constraint.{AddedAs, Differs, Lists};

use crate::layout::CONSTRAINTS;
use crate::steps::Stopped;
use crate::terms::trail::undo;
use crate::terms::unify::unify;
use crate::terms::walk::{part_at, skip};
use crate::writer::line::Listed;
use crate::writer::lines::{add_absent, add_line, add_typed};
use crate::writer::look::{look_equations, look_through};
use crate::writer::trial::keep_equations;
use word::Kind;

// Each function tells where the next line goes, with the steps left, or a stop.

// A disequality: its trial again. What it bound is taken back in every case, and listed if it succeeded.
fn differ_lines(
    program: &[u32],
    scratch: &mut [u32],
    output: &mut [u32],
    one: u32,
    other: u32,
    trail: u32,
    first: usize,
    end: usize,
    at: usize,
    steps: u32,
) -> Result<(usize, u32), Stopped>
    requires { Writing scratch.old output.old first end at
        × ((bs : Substitution) × (u : Term) × (v : Term) × Differs program.now scratch.old bs one u other v trail) }
    ensures { (g : Writing scratch.old output.old first end at) (bs : Substitution) (u v : Term)
        → Differs program.now scratch.old bs one u other v trail
        → AddedAs program.now scratch.old scratch.new g output.new bs (lines_of bs (differ u v) steps) result }
{
    let trial = unify(program, scratch, one, other, trail, steps);
    match trial.outcome {
        Err(stopped) => {
            undo(scratch, trail, trial.trail);
            Err(stopped)
        }
        Ok((joined, rest)) => {
            if !joined {
                undo(scratch, trail, trial.trail);
                return Ok((at, rest));
            }
            keep_equations(scratch, trail, trial.trail);
            let mark = trail as usize;
            let count = (trial.trail - trail) as usize;
            let after = look_equations(program, scratch, mark, count, rest)?;
            let line = Listed::Differ(mark, count);
            let next = add_line(program, scratch, output, line, first, end, at);
            Ok((next, after))
        }
    }
}

// An absence: its term's nodes, then a line for each open variable in it.
fn absence_lines(
    program: &[u32],
    scratch: &[u32],
    output: &mut [u32],
    constraint: u32,
    first: usize,
    end: usize,
    at: usize,
    steps: u32,
) -> Result<(usize, u32), Stopped>
    requires { Writing scratch.now output.old first end at
        × ((bs : Substitution) × (a : Atom) × (t : Term) × Binds program.now scratch.now bs × KeepsAt program.now constraint (absento a t)) }
    ensures { (g : Writing scratch.now output.old first end at) (bs : Substitution) (a : Atom) (t : Term)
        → Binds program.now scratch.now bs → KeepsAt program.now constraint (absento a t)
        → AddedAs program.now scratch.now scratch.now g output.new bs (lines_of bs (absento a t) steps) result }
{
    let term = constraint + 2;
    let rest = look_through(program, scratch, term, steps)?;
    let tag = part_at(program, constraint + 1).bits;
    let next = add_absent(program, scratch, output, tag, term, first, end, at);
    Ok((next, rest))
}

// A type: its term's nodes, then a line if it is an open variable.
fn type_lines(
    program: &[u32],
    scratch: &[u32],
    output: &mut [u32],
    kind: Kind,
    term: u32,
    first: usize,
    end: usize,
    at: usize,
    steps: u32,
) -> Result<(usize, u32), Stopped>
    requires { Writing scratch.now output.old first end at
        × ((bs : Substitution) × (k : Sort) × (t : Term) × Follows program.now scratch.now bs term t × (kind_number kind ≡ sort_kind k)) }
    ensures { (g : Writing scratch.now output.old first end at) (bs : Substitution) (k : Sort) (t : Term)
        → Follows program.now scratch.now bs term t → kind_number kind ≡ sort_kind k
        → AddedAs program.now scratch.now scratch.now g output.new bs (lines_of bs (typed k t) steps) result }
{
    let rest = look_through(program, scratch, term, steps)?;
    let next = add_typed(program, scratch, output, kind, term, first, end, at);
    Ok((next, rest))
}

// One constraint, by the reference of its goal.
fn add_constraint(
    program: &[u32],
    scratch: &mut [u32],
    output: &mut [u32],
    constraint: u32,
    trail: u32,
    first: usize,
    end: usize,
    at: usize,
    steps: u32,
) -> Result<(usize, u32), Stopped>
    requires { Writing scratch.old output.old first end at
        × ((bs : Substitution) × (cs : List Constraint) × (c : Constraint) × Lists program.now scratch.old bs cs constraint c trail) }
    ensures { (g : Writing scratch.old output.old first end at) (bs : Substitution) (cs : List Constraint) (c : Constraint)
        → Lists program.now scratch.old bs cs constraint c trail
        → AddedAs program.now scratch.old scratch.new g output.new bs (lines_of bs c steps) result }
{
    let one = constraint + 1;
    match part_at(program, constraint).kind {
        Kind::Differ => {
            let other = skip(program, one);
            differ_lines(
                program, scratch, output, one, other, trail, first, end, at, steps,
            )
        }
        Kind::Absento => absence_lines(program, scratch, output, constraint, first, end, at, steps),
        kind => type_lines(program, scratch, output, kind, one, first, end, at, steps),
    }
}

// All constraints that the path keeps.
pub(crate) fn add_constraints(
    program: &[u32],
    scratch: &mut [u32],
    output: &mut [u32],
    kept: u32,
    trail: u32,
    first: usize,
    end: usize,
    at: usize,
    steps: u32,
) -> Result<(usize, u32), Stopped>
    requires { Writing scratch.old output.old first end at
        × ((bs : Substitution) × (cs : List Constraint) × (made : ℕ) × ConstraintsHeld program.now scratch.old bs cs trail kept × Sound bs cs made) }
    ensures { (g : Writing scratch.old output.old first end at) (bs : Substitution) (cs : List Constraint) (made : ℕ)
        → ConstraintsHeld program.now scratch.old bs cs trail kept → Sound bs cs made
        → AddedAs program.now scratch.old scratch.new g output.new bs (all_lines bs cs steps) result }
{
    let mut place = at;
    let mut left = steps;
    for i in 0..kept {
        let constraint = scratch[CONSTRAINTS + i as usize];
        (place, left) = add_constraint(
            program, scratch, output, constraint, trail, first, end, place, left,
        )?;
    }
    Ok((place, left))
}
