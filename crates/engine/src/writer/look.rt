// The writer's steps: it looks at all nodes of a term.
ghost use Rattle.std.specs.Prelude.{List, ℕ};
ghost use Rattle.rules.specs.Syntax.{Term};
ghost use Rattle.semantics.specs.Substitution.{Substitution};
ghost use Rattle.engine.specs.Walk.{Follows};
ghost use Rattle.engine.specs.Look.{LookedThroughAs, Looks, rights, ThroughAs};

use crate::layout::{PAIR_WORD, TRAIL};
use crate::steps::Stopped;
use crate::terms::scan::scan;

// With the steps left. The word sought is no leaf's, so the scan finds nothing and goes on to the end.
pub(crate) fn look_through(
    program: &[u32],
    scratch: &[u32],
    term: u32,
    steps: u32,
) -> Result<u32, Stopped>
    requires { (bs : Substitution) × (t : Term) × Follows program.now scratch.now bs term t }
    ensures { (bs : Substitution) (t : Term) → Follows program.now scratch.now bs term t → LookedThroughAs bs t steps result }
{
    let (_, left) = scan(program, scratch, PAIR_WORD, term, steps)?;
    Ok(left)
}

// The right sides of a trial, kept from `mark` on.
pub(crate) fn look_equations(
    program: &[u32],
    scratch: &[u32],
    mark: usize,
    count: usize,
    steps: u32,
) -> Result<u32, Stopped>
    requires { (bs : Substitution) × (cs : List (ℕ × Term)) × Looks program.now scratch.now bs cs mark count }
    ensures { (bs : Substitution) (cs : List (ℕ × Term)) → Looks program.now scratch.now bs cs mark count → ThroughAs bs (rights cs) steps result }
{
    let mut left = steps;
    for i in 0..count {
        left = look_through(program, scratch, scratch[TRAIL + mark + i], left)?;
    }
    Ok(left)
}
