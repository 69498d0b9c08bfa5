// One turn of a round: a goal is taken, and the next one found.
ghost use Rattle.std.specs.Prelude.{List, ℕ};
ghost use Rattle.rules.specs.Syntax.{Program};
ghost use Rattle.semantics.specs.Steps.{Outcome, done};
ghost use Rattle.semantics.specs.Path.{Path, ChoicePoint, Taken, goes};
ghost use Rattle.semantics.specs.Substitution.{argument};
ghost use Rattle.semantics.specs.Round as definition;
ghost use Rattle.engine.specs.Take.{PathHeld};
ghost use Rattle.engine.specs.Turn.{Turning, took_goal, tallied, TurnedAs};

use crate::layout::{CELL_GOAL, CELL_NEXT};
use crate::search::choice::backtrack;
use crate::search::state::{Lead, State, Turned, Way};
use crate::search::take::take;

// The path is left; `cut` tells whether it was cut.
fn leave_path(program: &[u32], scratch: &mut [u32], st: State, cut: bool) -> Turned
    requires { (P : Program) × (p : Path) × (cs : List ChoicePoint) × PathHeld P program.now scratch.old st p cs }
    ensures { (P : Program) (n k : ℕ) (p : Path) (cs : List ChoicePoint) (t : definition.Tally) (o : Outcome Taken) → PathHeld P program.now scratch.old st p cs
        → TurnedAs P n k program.now scratch.new t o (definition.backtrack cs (tallied t st.steps cut)) result }
{
    match backtrack(program, scratch, st) {
        None => Turned {
            lead: Lead::Over,
            state: st,
            cut,
        },
        Some((next, goal)) => Turned {
            lead: Lead::Goal(goal),
            state: next,
            cut,
        },
    }
}

// The path goes on with its first waiting goal; with none it gives an answer, if it made as many calls as the round's number.
fn go_on(program: &[u32], scratch: &mut [u32], st: State, round: u32) -> Turned
    requires { (P : Program) × (p : Path) × (cs : List ChoicePoint) × PathHeld P program.now scratch.old st p cs }
    ensures { (P : Program) (n : ℕ) (p : Path) (cs : List ChoicePoint) (t : definition.Tally) → PathHeld P program.now scratch.old st p cs
        → TurnedAs P n round program.now scratch.new t (done (goes p cs) st.steps) (definition.go_on (definition.once argument) n round p p.stack cs (definition.spend t st.steps)) result }
{
    if st.head == 0 {
        if st.calls == round {
            return Turned {
                lead: Lead::Answer,
                state: st,
                cut: false,
            };
        }
        return leave_path(program, scratch, st, false);
    }
    let goal = (CELL_GOAL + 2 * st.head) as usize;
    let next = (CELL_NEXT + 2 * st.head) as usize;
    let popped = State {
        head: scratch[next],
        ..st
    };
    Turned {
        lead: Lead::Goal(scratch[goal]),
        state: popped,
        cut: false,
    }
}

pub(crate) fn turn(program: &[u32], scratch: &mut [u32], st: State, goal: u32, round: u32) -> Turned
    requires { (P : Program) × (state : definition.State) × Turning P program.now scratch.old st goal state }
    ensures { (P : Program) (n : ℕ) (state : definition.State) → Turning P program.now scratch.old st goal state
        → TurnedAs P n round program.now scratch.new state.tally (took_goal round P state st.steps) (definition.turn P n round state) result }
{
    let took = take(program, scratch, st, goal, round);
    let next = took.state;
    match took.way {
        Way::Goes => go_on(program, scratch, next, round),
        Way::Leaves => leave_path(program, scratch, next, false),
        Way::Cut => leave_path(program, scratch, next, true),
        Way::Stops(stopped) => Turned {
            lead: Lead::Stops(stopped),
            state: next,
            cut: false,
        },
    }
}
