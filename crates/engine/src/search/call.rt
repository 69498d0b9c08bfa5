// Taking calls: a relation's variables are made anew, its parameters bound to the arguments, its body put to wait.
ghost use Rattle.std.specs.Prelude.{List, ℕ, ◌+◌, ◌<◌};
ghost use Rattle.rules.specs.Syntax.{Term, call, Program};
ghost use Rattle.semantics.specs.Substitution.{Substitution, argument};
ghost use Rattle.semantics.specs.Path.{Path, ChoicePoint, take_call};
ghost use Rattle.engine.specs.Reference.{Stands};
ghost use Rattle.engine.specs.Walk.{Follows};
ghost use Rattle.engine.specs.Take.{GoalReady, TookAs};
ghost use Rattle.engine.specs.Call.{BindingParameters, ParametersBound};

use crate::layout::{MOST_GOALS, MOST_VARIABLES, POSITIONS};
use crate::report::Bound;
use crate::search::goal::push_goal;
use crate::search::state::{State, Took, Way, stopped_at};
use crate::search::table::relation;
use crate::terms::trail::bind;
use crate::terms::walk::{part_at, skip, variable_at};
use word::Kind;

// What a parameter is bound to: its argument, but of a variable the last variable on its way.
fn last_variable(program: &[u32], scratch: &[u32], term: u32) -> u32
    requires { (bs : Substitution) × (t : Term) × Follows program.now scratch.now bs term t }
    ensures { (bs : Substitution) (t : Term) → Follows program.now scratch.now bs term t → Stands program.now result (argument bs t) }
{
    let mut at = term;
    loop {
        let part = part_at(program, at);
        if part.kind != Kind::Variable {
            return at;
        }
        let entry = scratch[variable_at(at, part.payload) as usize];
        if entry == 0 {
            return at;
        }
        if part_at(program, entry - 1).kind != Kind::Variable {
            return at;
        }
        at = entry - 1;
    }
}

// Binds `count` variables from `first` on to the arguments from a reference on. Returns the entries of the trail then.
fn bind_parameters(
    program: &[u32],
    scratch: &mut [u32],
    arguments: u32,
    first: u32,
    count: u32,
    trail: u32,
) -> u32
    requires { (base : ℕ) × (to : ℕ) × (whole : Substitution) × BindingParameters program.now scratch.old scratch.old base to whole first trail arguments count }
    ensures { (base to : ℕ) (whole : Substitution) → BindingParameters program.now scratch.old scratch.old base to whole first trail arguments count
        → ParametersBound program.now scratch.old scratch.new whole result }
{
    let mut at = arguments;
    let mut bound = trail;
    for i in 0..count {
        let term = last_variable(program, scratch, at);
        bound = bind(scratch, first + i, term, bound);
        at = skip(program, at);
    }
    bound
}

// A call is cut when the path has made as many as the round's number.
pub(crate) fn take_call(
    program: &[u32],
    scratch: &mut [u32],
    st: State,
    goal: u32,
    round: u32,
) -> Took
    requires { (P : Program) × (p : Path) × (cs : List ChoicePoint) × (base : ℕ) × (n : ℕ) × (ts : List Term) × GoalReady P program.now scratch.old st goal p cs (base, call n ts) }
    ensures { (P : Program) (p : Path) (cs : List ChoicePoint) (base n : ℕ) (ts : List Term) → GoalReady P program.now scratch.old st goal p cs (base, call n ts)
        → TookAs P program.now scratch.new cs (take_call round P p cs base n ts st.steps) result.way result.state }
{
    if round <= st.calls {
        return Took {
            way: Way::Cut,
            state: st,
        };
    }
    let called = relation(program, scratch, part_at(program, goal + 1).payload);
    if MOST_VARIABLES < st.variables + called.vars {
        return stopped_at(Bound::Variables, st);
    }
    if MOST_GOALS <= st.goals {
        return stopped_at(Bound::Goals, st);
    }
    let trail = bind_parameters(
        program,
        scratch,
        goal + 2,
        st.variables,
        called.params,
        st.trail,
    );
    let made = State {
        trail,
        variables: st.variables + called.vars,
        calls: st.calls + 1,
        ..st
    };
    Took {
        way: Way::Goes,
        state: push_goal(scratch, made, called.body + POSITIONS * st.variables),
    }
}
