// The engine: a rule file is run through its rounds over lent words.
#![tactic(auto)]

mod clear;
mod layout;
mod repeats;
mod report;
mod round;
mod rounds;
mod search;
mod steps;
mod terms;
mod writer;

ghost use Rattle.std.specs.Prelude.{Ok};
ghost use Rattle.engine.specs.Report.{RunPromise};
ghost use Rattle.engine.specs.Run.{Admitted};

use crate::clear::clear;
pub use crate::report::{Bound, End, Refusal, Report};
use crate::rounds::rounds;
use crate::search::table::fill_relations;
use rules::SCRATCH_WORDS;

// Runs the program through its rounds. Answers go to `output`, one after the other; one with the same words as an earlier one is not written, but the run ends as output full if it would not fit. The first
// `SCRATCH_WORDS` of `scratch` are 0 afterwards, and those beyond as lent. A refusal leaves both as lent.
pub fn run(
    program: &[u32],
    rounds: u32,
    steps: u32,
    output: &mut [u32],
    scratch: &mut [u32],
) -> Result<Report, Refusal>
    ensures { RunPromise program.now rounds steps output.old scratch.old result output.new scratch.new }
{
    if !rules::settings_good(rounds, scratch.len()) {
        return Err(Refusal::Settings);
    }
    rules::check(program)?;
    Ok(run_accepted(
        program,
        rounds,
        steps,
        output,
        &mut scratch[..SCRATCH_WORDS],
    ))
}

// Runs a program that is accepted, with settings in their bounds, over just the scratch that a run uses.
fn run_accepted(
    program: &[u32],
    limit: u32,
    steps: u32,
    output: &mut [u32],
    scratch: &mut [u32],
) -> Report
    requires { Admitted program.now limit scratch.old }
    ensures { RunPromise program.now limit steps output.old scratch.old (Ok result) output.new scratch.new }
{
    let size = scratch.len();
    clear(scratch, 0, size);
    fill_relations(program, scratch);
    let report = rounds(program, scratch, output, 0, limit, steps);
    let used = report.words as usize;
    clear(scratch, 0, size);
    let room = output.len();
    clear(output, used, room);
    report
}
