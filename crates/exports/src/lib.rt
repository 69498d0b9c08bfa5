// The functions for other languages: `check` of crate rules, `run` of crate engine and `find` of crate page, with their results in numbers.
#![tactic(auto)]

ghost use Rattle.std.specs.Prelude.{◌≡◌, ◌<◌, IfErr};
ghost use Rattle.rules.specs.Accept.{read};
ghost use Rattle.rules.specs.Verdict.{said};
ghost use Rattle.engine.specs.Report.{counts, ended, refusal_place};
ghost use Rattle.page.specs.Page.{find};
ghost use Rattle.exports.specs.Numbers.{CallPromise, numbers_of, packed, view_call};

use engine::{End, Refusal, Report};

// 0 if the program is accepted, else the number times 2^32 plus the place.
#[unsafe(no_mangle)]
pub extern "C" fn kindcanvas_check(program: &[u32]) -> u64
    ensures { result ≡ packed (said (read program.now)) }
{
    match rules::check(program) {
        Ok(()) => 0,
        Err(refusal) => {
            (refusal.condition.number() as u64) * 4294967296 + (refusal.place as u64)
        }
    }
}

// What a run returns, in eight numbers.
fn numbered(returned: Result<Report, Refusal>) -> [u32; 8]
    requires { IfErr returned (λ refusal. refusal_place refusal < 4294967296) }
    ensures { result ≡ numbers_of (ended returned) (counts returned) }
{
    match returned {
        Ok(report) => {
            let (end, bound) = match report.end {
                End::Finished => (0, 0),
                End::Rounds => (1, 0),
                End::Steps => (2, 0),
                End::Output => (3, 0),
                End::Path(bound) => (4, bound.number()),
            };
            [
                end,
                bound,
                0,
                report.round,
                report.steps,
                report.answers,
                report.words,
                report.cut,
            ]
        }
        Err(refusal) => [5, refusal.number(), refusal.place() as u32, 0, 0, 0, 0, 0],
    }
}

// `run`, with its result as eight numbers at the start of `numbers`. Returns how many it wrote there: 8, or 0 if `numbers` is too short; then nothing is run.
#[unsafe(no_mangle)]
pub extern "C" fn kindcanvas_run(
    program: &[u32],
    rounds: u32,
    steps: u32,
    output: &mut [u32],
    scratch: &mut [u32],
    numbers: &mut [u32],
) -> u32
    ensures { CallPromise program.now rounds steps output.old scratch.old numbers.old result output.new scratch.new numbers.new }
{
    if numbers.len() < 8 {
        return 0;
    }
    let returned = engine::run(program, rounds, steps, output, scratch);
    numbers[..8].copy_from_slice(&numbered(returned));
    8
}

// Where the answer of this number, from 0, stands on the page: from `start` up to but without `end`, with its header. Returns 0, or the refusal's number; then the
// part is empty, at the refusal's place.
#[unsafe(no_mangle)]
pub extern "C" fn kindcanvas_view(
    page: &[u32],
    answer: u32,
    start: &mut usize,
    end: &mut usize,
) -> u32
    ensures { view_call (find page.now answer) ≡ record { result = result; start = start.new; end = end.new } }
{
    match page::find(page, answer) {
        Ok(part) => {
            *start = part.start;
            *end = part.end;
            0
        }
        Err(missing) => {
            *start = missing.place;
            *end = missing.place;
            missing.number()
        }
    }
}
