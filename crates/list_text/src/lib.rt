// The text that the listing program prints of a rule file.
#![tactic(auto)]

mod answers;
mod put;
mod report;
mod words;

ghost use Rattle.std.specs.Prelude.{◌≡◌, ◌≤◌, length, replicate};
ghost use Rattle.semantics.specs.Run.{run_as_written};
ghost use Rattle.list_text.specs.Listing.{TextAs, listing_text, printed_text, report_text};
ghost use Rattle.list_text.specs.Writing.{Wrote};
ghost use Rattle.rules.specs.Settings.{scratch_words};

use crate::answers::put_answers;
use crate::report::put_report;
use crate::words::{read_words, word_count};
use rules::SCRATCH_WORDS;

// Runs the program with this output, which is all 0, and writes its list.
fn list(program: &[u32], rounds: u32, steps: u32, output: &mut [u32], out: &mut [u8]) -> usize
    requires { (length output.old ≤ 4096) × (output.old ≡ replicate (length output.old) 0) }
    ensures { Wrote (report_text (run_as_written program.now rounds steps output.old (replicate scratch_words 0)).report) 0 out.old result out.new × (result ≤ 65536) }
{
    let mut scratch = [0u32; SCRATCH_WORDS];
    let report = engine::run(program, rounds, steps, output, &mut scratch);
    let next = put_report(report, out);
    put_answers(output, next, out)
}

// Runs the program in these bytes with so many output words, at most 4,096, and writes its list to the start of `out`, as far as that reaches.
// Returns how long the list is.
pub fn text(bytes: &[u8], rounds: u32, steps: u32, room: usize, out: &mut [u8]) -> usize
    ensures { TextAs (listing_text bytes.now rounds steps room) out.old result out.new }
{
    let mut words = [0u32; 16385];
    let count = word_count(bytes.len());
    read_words(bytes, &mut words, count);
    let mut output = [0u32; 4096];
    let lent = room.min(4096);
    list(&words[..count], rounds, steps, &mut output[..lent], out)
}

// What the listing program prints of these bytes: their list with document 01's limits, as `text` writes it.
pub fn printed_text(bytes: &[u8], out: &mut [u8]) -> usize
    ensures { TextAs (printed_text bytes.now) out.old result out.new }
{
    text(bytes, 16, 1000000, 4096, out)
}
