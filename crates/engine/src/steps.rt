// Where a run stops before its end.
ghost use Rattle.std.specs.Prelude.{◌≡◌};
ghost use Rattle.engine.specs.Steps.{at_bound};

use crate::report::Bound;

// Why it stops.
#[derive(Clone, Copy)]
pub enum Stop {
    Steps,
    Path(Bound),
}

// A stop, with the steps left.
#[derive(Clone, Copy)]
pub struct Stopped {
    pub why: Stop,
    pub left: u32,
}

// The steps are used up.
pub(crate) const NO_STEPS: Stopped = Stopped {
    why: Stop::Steps,
    left: 0,
};

// A bound on one path is met.
pub(crate) fn at_bound(bound: Bound, left: u32) -> Stopped
    ensures { result ≡ at_bound bound left }
{
    Stopped {
        why: Stop::Path(bound),
        left,
    }
}
