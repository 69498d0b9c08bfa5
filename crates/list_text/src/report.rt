// The first line of a list.
ghost use Rattle.std.specs.Prelude.{◌++◌, ◌+◌, ◌≤◌, length};
ghost use Rattle.engine.specs.Report.{counts, end_says, ended, refusal_number, refusal_place, refused};
ghost use Rattle.list_text.specs.Listing.{counts_text, decimal, end_name, first_line};
ghost use Rattle.list_text.specs.Writing.{Wrote};

use crate::put::{put_number, put_text};
use engine::{End, Refusal, Report};

// A count, which takes at most 10 bytes, behind its name.
fn put_count(name: &[u8], count: u32, at: usize, out: &mut [u8]) -> usize
    requires { at + length name.now + 10 ≤ 65536 }
    ensures { Wrote (name.now ++ decimal count) at out.old result out.new × (result ≤ at + length name.now + 10) }
{
    let next = put_text(name, at, out);
    put_number(count as usize, next, out)
}

// How the run ended: a path's limit takes at most 15 bytes.
fn put_end(end: End, at: usize, out: &mut [u8]) -> usize
    requires { at ≤ 4 }
    ensures { Wrote (end_name (end_says end)) at out.old result out.new × (result ≤ 19) }
{
    match end {
        End::Finished => put_text(b"finished", at, out),
        End::Rounds => put_text(b"rounds", at, out),
        End::Steps => put_text(b"steps", at, out),
        End::Output => put_text(b"output", at, out),
        End::Path(bound) => put_count(b"path ", bound.number(), at, out),
    }
}

fn put_counts(report: Report, at: usize, out: &mut [u8]) -> usize
    requires { at ≤ 19 }
    ensures { Wrote (counts_text report.round report.steps report.answers report.cut) at out.old result out.new × (result ≤ 100) }
{
    let mut next = put_count(b" round ", report.round, at, out);
    next = put_count(b" steps ", report.steps, next, out);
    next = put_count(b" answers ", report.answers, next, out);
    next = put_count(b" cut ", report.cut, next, out);
    put_text(b"\n", next, out)
}

fn put_refusal(refusal: Refusal, out: &mut [u8]) -> usize
    ensures { Wrote (first_line (refused (refusal_number refusal) (refusal_place refusal)) 0 0 0 0) 0 out.old result out.new × (result ≤ 100) }
{
    let mut next = put_text(b"refused ", 0, out);
    next = put_number(refusal.number() as usize, next, out);
    next = put_text(b" at ", next, out);
    next = put_number(refusal.place(), next, out);
    put_text(b"\n", next, out)
}

pub(crate) fn put_report(returned: Result<Report, Refusal>, out: &mut [u8]) -> usize
    ensures { Wrote (first_line (ended returned) (counts returned).round (counts returned).steps (counts returned).answers (counts returned).cut) 0 out.old result out.new × (result ≤ 100) }
{
    match returned {
        Ok(report) => {
            let mut next = put_text(b"end ", 0, out);
            next = put_end(report.end, next, out);
            put_counts(report, next, out)
        }
        Err(refusal) => put_refusal(refusal, out),
    }
}
