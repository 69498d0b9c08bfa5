// The state of a search, by value: what it saves in a choice point, and two numbers more. Paths and choice points themselves are in the scratch.
ghost use Rattle.std.specs.Prelude.{◌≡◌, ◌+◌, ◌<◌};
ghost use Rattle.engine.specs.Take.{took_stopped};

use crate::report::Bound;
use crate::steps::{Stopped, at_bound};

#[derive(Clone, Copy)]
pub struct State {
    // The first waiting goal's cell, or 0.
    pub head: u32,
    pub trail: u32,
    pub variables: u32,
    pub goals: u32,
    pub constraints: u32,
    pub calls: u32,
    pub choices: u32,
    // The steps left.
    pub steps: u32,
}

// What taking a goal comes to: its path goes on, is left, is cut, or a stop.
#[derive(Clone, Copy)]
pub enum Way {
    Goes,
    Leaves,
    Cut,
    Stops(Stopped),
}

// The state stands beside the case, in one place for every case: as a part of each it would go through memory at every goal. After a stop it is not used.
#[derive(Clone, Copy)]
pub struct Took {
    pub way: Way,
    pub state: State,
}

// A goal meets a bound on its path, and its own step is given back.
pub(crate) fn stopped_at(bound: Bound, st: State) -> Took
    requires { st.steps < 4294967295 }
    ensures { result ≡ took_stopped bound st }
{
    Took {
        way: Way::Stops(at_bound(bound, st.steps + 1)),
        state: st,
    }
}

// What a turn leads to: a goal to be taken next, by its reference; the round's end; a path that gives an answer; a stop.
#[derive(Clone, Copy)]
pub enum Lead {
    Goal(u32),
    Over,
    Answer,
    Stops(Stopped),
}

// The state is beside the case as in `Took`; `cut` tells whether the turn cut a branch.
#[derive(Clone, Copy)]
pub struct Turned {
    pub lead: Lead,
    pub state: State,
    pub cut: bool,
}

// Where turn after turn leads: a path gives an answer, or the round is over. The number is how many branches the round has cut.
#[derive(Clone, Copy)]
pub enum Searched {
    Answer(State, u32),
    Over(State, u32),
}
