// Disjunctions, whose alternatives are tried left to right: choice points of eight words each, and backtracking to them.
ghost use Rattle.std.specs.Prelude.{◌≡◌, List, ◌-◌, ◌<◌, ◌≤◌, ℕ, length};
ghost use Rattle.rules.specs.Syntax.{Program, Goals, disj};
ghost use Rattle.rules.specs.Settings.{scratch_words};
ghost use Rattle.semantics.specs.Path.{Path, ChoicePoint, take_disj};
ghost use Rattle.semantics.specs.Round.{Tally, backtrack};
ghost use Rattle.engine.specs.Layout.{most_goals, most_disjunctions};
ghost use Rattle.engine.specs.Memory.{point};
ghost use Rattle.engine.specs.Take.{registers, one_choice_more, resumed, PathHeld, BacktrackAs, Taking, TookAs};

use crate::layout::{MOST_DISJUNCTIONS, MOST_GOALS, POINTS};
use crate::report::Bound;
use crate::search::goal::push_goal;
use crate::search::state::{State, Took, Way, stopped_at};
use crate::terms::trail::undo;
use crate::terms::walk::{part_at, part_end};

// Makes a choice point: the alternatives left, from a reference up to the position `end`, and all that the path has when it is come back to.
pub(crate) fn push_choice(scratch: &mut [u32], st: State, rest: u32, end: u32) -> State
    requires { (scratch_words ≤ length scratch.old) × (st.choices < most_disjunctions) }
    ensures { (result ≡ one_choice_more st) × (scratch.new ≡ point scratch.old st.choices rest end (registers st)) }
{
    let at = (POINTS + 8 * st.choices) as usize;
    scratch[at] = rest;
    scratch[at + 1] = end;
    scratch[at + 2] = st.head;
    scratch[at + 3] = st.trail;
    scratch[at + 4] = st.variables;
    scratch[at + 5] = st.goals;
    scratch[at + 6] = st.constraints;
    scratch[at + 7] = st.calls;
    State {
        choices: st.choices + 1,
        ..st
    }
}

// The state that the newest choice point has saved, with one goal more put to wait, when so many choice points are left.
fn saved_state(scratch: &[u32], st: State, choices: u32) -> State
    requires { (scratch_words ≤ length scratch.now) × (0 < st.choices) × (st.choices ≤ most_disjunctions) × ((resumed scratch.now st choices).goals ≤ most_goals) }
    ensures { result ≡ resumed scratch.now st choices }
{
    let at = (POINTS + 8 * (st.choices - 1)) as usize;
    State {
        head: scratch[at + 2],
        trail: scratch[at + 3],
        variables: scratch[at + 4],
        goals: scratch[at + 5] + 1,
        constraints: scratch[at + 6],
        calls: scratch[at + 7],
        choices,
        steps: st.steps,
    }
}

// Backtracks to the newest choice point, if there is one: all that was bound since is undone, and its next alternative is to be taken, by its reference. Where that is its last one, the choice point goes.
pub(crate) fn backtrack(program: &[u32], scratch: &mut [u32], st: State) -> Option<(State, u32)>
    requires { (P : Program) × (p : Path) × (cs : List ChoicePoint) × PathHeld P program.now scratch.old st p cs }
    ensures { (P : Program) (p : Path) (cs : List ChoicePoint) (t : Tally) → PathHeld P program.now scratch.old st p cs
        → BacktrackAs P program.now scratch.new st t (backtrack cs t) result }
{
    if st.choices == 0 {
        return None;
    }
    let at = (POINTS + 8 * (st.choices - 1)) as usize;
    let goal = scratch[at];
    let end = scratch[at + 1];
    let mark = scratch[at + 3];
    undo(scratch, mark, st.trail);
    let size = part_at(program, goal).payload;
    if part_end(goal, size) == end {
        return Some((saved_state(scratch, st, st.choices - 1), goal));
    }
    scratch[at] = goal + 1 + size;
    Some((saved_state(scratch, st, st.choices), goal))
}

// A disjunction puts its first alternative to wait; where there are more, a choice point has the others.
pub(crate) fn take_disj(program: &[u32], scratch: &mut [u32], st: State, disjunction: u32) -> Took
    requires { (P : Program) × (p : Path) × (cs : List ChoicePoint) × (base : ℕ) × (gs : Goals) × Taking P program.now scratch.old st disjunction p cs (base, disj gs) }
    ensures { (P : Program) (p : Path) (cs : List ChoicePoint) (base : ℕ) (gs : Goals) → Taking P program.now scratch.old st disjunction p cs (base, disj gs)
        → TookAs P program.now scratch.new cs (take_disj p cs base gs st.steps) result.way result.state }
{
    if MOST_GOALS <= st.goals {
        return stopped_at(Bound::Goals, st);
    }
    let end = part_end(disjunction, part_at(program, disjunction).payload);
    let first = disjunction + 1;
    let size = part_at(program, first).payload;
    if part_end(first, size) == end {
        return Took {
            way: Way::Goes,
            state: push_goal(scratch, st, first),
        };
    }
    if MOST_DISJUNCTIONS <= st.choices {
        return stopped_at(Bound::Disjunctions, st);
    }
    let pushed = push_choice(scratch, st, first + 1 + size, end);
    Took {
        way: Way::Goes,
        state: push_goal(scratch, pushed, first),
    }
}
