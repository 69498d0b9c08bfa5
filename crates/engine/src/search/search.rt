// Turn after turn, until a path gives an answer or the round ends.
ghost use Rattle.std.specs.Prelude.{◌≡◌, ℕ, ◌<◌};
ghost use Rattle.rules.specs.Syntax.{Program};
ghost use Rattle.semantics.specs.Round as definition;
ghost use Rattle.semantics.specs.Invariant.{ProgramIn};
ghost use Rattle.engine.specs.Search.{count_cuts, Searching, SearchedAs};

use crate::search::state::{Lead, Searched, State};
use crate::search::turn::turn;
use crate::steps::Stopped;

// One more if a branch was cut.
fn count_cuts(cuts: u32, cut: bool) -> u32
    requires { cuts < 4294967295 }
    ensures { result ≡ count_cuts cuts cut }
{
    cuts + u32::from(cut)
}

pub(crate) fn search(
    program: &[u32],
    scratch: &mut [u32],
    first: State,
    task: u32,
    round: u32,
    before: u32,
) -> Result<Searched, Stopped>
    requires { (P : Program) × (wf : ProgramIn P) × (n : ℕ) × (state : definition.State) × Searching P wf n round program.now scratch.old first task before state }
    ensures { (P : Program) (wf : ProgramIn P) (n : ℕ) (state : definition.State) (fuel : ℕ)
        → Searching P wf n round program.now scratch.old first task before state → state.tally.left < fuel
        → SearchedAs P wf n round program.now scratch.new state fuel result }
{
    let mut st = first;
    let mut goal = task;
    let mut cuts = before;
    loop {
        let turned = turn(program, scratch, st, goal, round);
        st = turned.state;
        match turned.lead {
            Lead::Goal(next) => {
                goal = next;
                cuts = count_cuts(cuts, turned.cut);
            }
            Lead::Over => {
                return Ok(Searched::Over(st, count_cuts(cuts, turned.cut)));
            }
            Lead::Answer => {
                return Ok(Searched::Answer(st, cuts));
            }
            Lead::Stops(stopped) => {
                return Err(stopped);
            }
        }
    }
}
