// Taking a goal, whatever its kind.
ghost use Rattle.std.specs.Prelude.{List};
ghost use Rattle.rules.specs.Syntax.{Program};
ghost use Rattle.semantics.specs.Path.{Task, Path, ChoicePoint, take_goal};
ghost use Rattle.engine.specs.Take.{Due, TookAs};

use crate::search::call::take_call;
use crate::search::choice::take_disj;
use crate::search::constrain::{take_constraint, take_equal, with_counts};
use crate::search::goal::take_conj;
use crate::search::state::{State, Took, Way};
use crate::steps::NO_STEPS;
use crate::terms::walk::part_at;
use word::Kind;

// A step, and what the goal asks for; the round's number bounds its calls.
pub(crate) fn take(program: &[u32], scratch: &mut [u32], st: State, goal: u32, round: u32) -> Took
    requires { (P : Program) × (p : Path) × (cs : List ChoicePoint) × (task : Task) × Due P program.now scratch.old st goal p cs task }
    ensures { (P : Program) (p : Path) (cs : List ChoicePoint) (task : Task) → Due P program.now scratch.old st goal p cs task
        → TookAs P program.now scratch.new cs (take_goal round P p cs task.0 task.1 st.steps) result.way result.state }
{
    if st.steps == 0 {
        return Took {
            way: Way::Stops(NO_STEPS),
            state: st,
        };
    }
    let taking = with_counts(st, st.trail, st.constraints, st.steps - 1);
    match part_at(program, goal).kind {
        Kind::Equal => take_equal(program, scratch, taking, goal),
        Kind::Conjunction => take_conj(program, scratch, taking, goal),
        Kind::Disjunction => take_disj(program, scratch, taking, goal),
        Kind::Call => take_call(program, scratch, taking, goal, round),
        _ => take_constraint(program, scratch, taking, goal),
    }
}
