// Goals put to wait: a conjunction takes its goals apart.
ghost use Rattle.std.specs.Prelude.{◌≡◌, List, ℕ, ◌+◌, ◌<◌, ◌≤◌, length};
ghost use Rattle.rules.specs.Syntax.{Goals, conj, Program};
ghost use Rattle.rules.specs.Settings.{scratch_words};
ghost use Rattle.semantics.specs.Path.{Path, ChoicePoint, take_conj};
ghost use Rattle.engine.specs.Layout.{most_goals};
ghost use Rattle.engine.specs.Memory.{cell};
ghost use Rattle.engine.specs.Take.{Taking, TookAs, one_goal_more};

use crate::layout::{CELL_GOAL, CELL_NEXT, MOST_GOALS};
use crate::report::Bound;
use crate::search::state::{State, Took, Way, stopped_at};
use crate::terms::walk::{part_at, part_end};

// A conjunction puts its goals to wait: in cells one after the other, each linked to the next and the last to the old head.
pub(crate) fn take_conj(program: &[u32], scratch: &mut [u32], st: State, conjunction: u32) -> Took
    requires { (P : Program) × (p : Path) × (cs : List ChoicePoint) × (base : ℕ) × (gs : Goals) × Taking P program.now scratch.old st conjunction p cs (base, conj gs) }
    ensures { (P : Program) (p : Path) (cs : List ChoicePoint) (base : ℕ) (gs : Goals) → Taking P program.now scratch.old st conjunction p cs (base, conj gs)
        → TookAs P program.now scratch.new cs (take_conj p cs base gs st.steps) result.way result.state }
{
    let end = part_end(conjunction, part_at(program, conjunction).payload);
    let mut goal = conjunction + 1;
    let mut filled = st.goals;
    loop {
        if MOST_GOALS <= filled {
            return stopped_at(Bound::Goals, st);
        }
        let size = part_at(program, goal).payload;
        let at = (CELL_GOAL + 2 * (filled + 1)) as usize;
        scratch[at] = goal;
        if part_end(goal, size) == end {
            scratch[at + 1] = st.head;
            return Took {
                way: Way::Goes,
                state: State {
                    head: st.goals + 1,
                    goals: filled + 1,
                    ..st
                },
            };
        }
        scratch[at + 1] = filled + 2;
        goal = goal + 1 + size;
        filled += 1;
    }
}

// Puts a goal to wait: it stands ahead of all older ones.
pub(crate) fn push_goal(scratch: &mut [u32], st: State, goal: u32) -> State
    requires { (scratch_words ≤ length scratch.old) × (st.goals < most_goals) }
    ensures { (result ≡ one_goal_more st) × (scratch.new ≡ cell scratch.old (st.goals + 1) goal st.head) }
{
    let at = (CELL_GOAL + 2 * (st.goals + 1)) as usize;
    let next = (CELL_NEXT + 2 * (st.goals + 1)) as usize;
    scratch[at] = goal;
    scratch[next] = st.head;
    State {
        head: st.goals + 1,
        goals: st.goals + 1,
        ..st
    }
}
