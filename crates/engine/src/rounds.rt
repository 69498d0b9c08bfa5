// The rounds of a run, one after the other.
ghost use Rattle.std.specs.Prelude.{◌≤◌, [], length};
ghost use Rattle.rules.specs.Syntax.{Program, Relation};
ghost use Rattle.semantics.specs.Round as definition;
ghost use Rattle.semantics.specs.Run.{usable};
ghost use Rattle.engine.specs.Rounds.{RunReady, Reported, ResultAs};

use crate::report::{End, Report};
use crate::round::{Filled, Tally, round};

// The report of a run with this step limit, whose last completed round cut so many branches.
fn report(end: End, round: u32, steps: u32, tally: Tally, cut: u32) -> Report
    requires { tally.left ≤ steps }
    ensures { Reported end round steps tally cut result }
{
    Report {
        end,
        round,
        steps: steps - tally.left,
        answers: tally.filled.answers,
        words: tally.filled.used,
        cut,
    }
}

// Rounds 0, 1, 2 and so on of the relation `query`, up to one that is broken off, that cut no branch, or that is the limit.
pub(crate) fn rounds(
    program: &[u32],
    scratch: &mut [u32],
    output: &mut [u32],
    query: u32,
    limit: u32,
    steps: u32,
) -> Report
    requires { (P : Program) × (R : Relation) × RunReady program.now scratch.old P query R limit }
    ensures { (P : Program) (R : Relation) → RunReady program.now scratch.old P query R limit
        → ResultAs output.new (definition.rounds steps P R limit 0 (usable (length output.old)) steps 0 []) result }
{
    let mut number = 0;
    let mut cut = 0;
    let mut tally = Tally {
        left: steps,
        filled: Filled {
            used: 0,
            answers: 0,
            index: 0,
        },
    };
    loop {
        match round(program, scratch, output, query, number, tally) {
            Err(broken) => {
                return report(broken.end, number, steps, broken.tally, cut);
            }
            Ok(completed) => {
                tally = completed.tally;
                cut = completed.cuts;
                if cut == 0 {
                    return report(End::Finished, number, steps, tally, cut);
                }
                if limit <= number {
                    return report(End::Rounds, number, steps, tally, cut);
                }
                number += 1;
            }
        }
    }
}
