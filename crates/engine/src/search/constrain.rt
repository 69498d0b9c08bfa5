// Taking equalities and constraints: the path goes on with what they ask, or it is left.
ghost use Rattle.std.specs.Prelude.{◌≡◌, List, ℕ};
ghost use Rattle.rules.specs.Syntax.{Term, Constraint, equal, constrain, Program};
ghost use Rattle.semantics.specs.Substitution.{shift, shift_constraint};
ghost use Rattle.semantics.specs.Path.{Path, ChoicePoint, take_equal, take_constraint};
ghost use Rattle.engine.specs.Take.{GoalReady, TookAs, with_counts, review_took};

use crate::layout::{CONSTRAINTS, MOST_CONSTRAINTS};
use crate::report::Bound;
use crate::search::state::{State, Took, Way, stopped_at};
use crate::steps::Stopped;
use crate::terms::review::{review, review_all};
use crate::terms::unify::unify;
use crate::terms::walk::skip;

// The state with so many entries on the trail, so many constraints, so many steps left.
pub(crate) fn with_counts(st: State, trail: u32, kept: u32, left: u32) -> State
    ensures { result ≡ with_counts st trail kept left }
{
    State {
        trail,
        constraints: kept,
        steps: left,
        ..st
    }
}

// What a review comes to for its path.
fn after_review(st: State, reviewed: Result<(bool, u32), Stopped>) -> Took
    ensures { result ≡ review_took st reviewed }
{
    match reviewed {
        Ok((true, left)) => Took {
            way: Way::Leaves,
            state: with_counts(st, st.trail, st.constraints, left),
        },
        Ok((false, left)) => Took {
            way: Way::Goes,
            state: with_counts(st, st.trail, st.constraints, left),
        },
        Err(stopped) => Took {
            way: Way::Stops(stopped),
            state: st,
        },
    }
}

// An equality unifies its terms; where that bound something, the constraints are reviewed.
pub(crate) fn take_equal(program: &[u32], scratch: &mut [u32], st: State, goal: u32) -> Took
    requires { (P : Program) × (p : Path) × (cs : List ChoicePoint) × (base : ℕ) × (s : Term) × (t : Term) × GoalReady P program.now scratch.old st goal p cs (base, equal s t) }
    ensures { (P : Program) (p : Path) (cs : List ChoicePoint) (base : ℕ) (s t : Term) → GoalReady P program.now scratch.old st goal p cs (base, equal s t)
        → TookAs P program.now scratch.new cs (take_equal p cs (shift base s) (shift base t) st.steps) result.way result.state }
{
    let second = skip(program, goal + 1);
    let unified = unify(program, scratch, goal + 1, second, st.trail, st.steps);
    let (joined, left) = match unified.outcome {
        Ok(told) => told,
        Err(stopped) => {
            return Took {
                way: Way::Stops(stopped),
                state: st,
            };
        }
    };
    let state = with_counts(st, unified.trail, st.constraints, left);
    if !joined {
        return Took {
            way: Way::Leaves,
            state,
        };
    }
    if unified.trail == st.trail {
        return Took {
            way: Way::Goes,
            state,
        };
    }
    let reviewed = review_all(program, scratch, unified.trail, st.constraints, left);
    after_review(state, reviewed)
}

// A constraint is kept, and reviewed.
pub(crate) fn take_constraint(program: &[u32], scratch: &mut [u32], st: State, goal: u32) -> Took
    requires { (P : Program) × (p : Path) × (cs : List ChoicePoint) × (base : ℕ) × (c : Constraint) × GoalReady P program.now scratch.old st goal p cs (base, constrain c) }
    ensures { (P : Program) (p : Path) (cs : List ChoicePoint) (base : ℕ) (c : Constraint) → GoalReady P program.now scratch.old st goal p cs (base, constrain c)
        → TookAs P program.now scratch.new cs (take_constraint p cs (shift_constraint base c) st.steps) result.way result.state }
{
    if MOST_CONSTRAINTS <= st.constraints {
        return stopped_at(Bound::Constraints, st);
    }
    scratch[CONSTRAINTS + st.constraints as usize] = goal;
    let reviewed = review(
        program,
        scratch,
        goal,
        st.trail,
        st.constraints + 1,
        st.steps,
    );
    after_review(
        with_counts(st, st.trail, st.constraints + 1, st.steps),
        reviewed,
    )
}
