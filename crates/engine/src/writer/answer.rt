// The writer: the answer of a path, behind those already in the output.
ghost use Rattle.std.specs.Prelude.{List, [], ℕ, ◌≤◌, ◌+◌};
ghost use Rattle.rules.specs.Syntax.{Program};
ghost use Rattle.semantics.specs.Substitution.{Substitution};
ghost use Rattle.semantics.specs.Path.{Path, ChoicePoint};
ghost use Rattle.semantics.specs.Answer.{answer};
ghost use Rattle.engine.specs.Layout.{most_variables};
ghost use Rattle.engine.specs.Term.{Room};
ghost use Rattle.engine.specs.Lines.{AnswerSoFar};
ghost use Rattle.engine.specs.Query.{Query, query_words};
ghost use Rattle.engine.specs.Answer.{Answering, AnsweredAs, Ends, EndedAs};

use crate::layout::MOST_OUTPUT;
use crate::search::state::State;
use crate::steps::Stopped;
use crate::writer::constraint::add_constraints;
use crate::writer::names::clear_names;
use crate::writer::query::{look_parameters, name_parameters, put_parameters};
use crate::writer::term::put_head;
use word::Kind;

// The query terms, one word behind `start`: the answer's own word goes in last, when its length is known.
fn begin_answer(
    program: &[u32],
    scratch: &[u32],
    output: &mut [u32],
    params: u32,
    start: usize,
    end: usize,
) -> usize
    requires { Room output.old end × (params ≤ most_variables) × ((bs : Substitution) × (names : List ℕ) × Query program.now scratch.now params bs names) }
    ensures { (bs : Substitution) (names : List ℕ) → Query program.now scratch.now params bs names
        → AnswerSoFar output.old output.new (start + 1) result end result (query_words bs names 0 params) [] }
{
    if end <= start {
        return end + 1;
    }
    put_parameters(program, scratch, output, params, start + 1, end).unwrap_or(end + 1)
}

// The answer's own word, if all of it fits. The output words used then.
fn end_answer(output: &mut [u32], start: usize, end: usize, at: usize) -> Option<u32>
    requires { Room output.old end × ((o : List ℕ) × (v : List ℕ) × Ends o output.old start end v at) }
    ensures { (o : List ℕ) (v : List ℕ) → Ends o output.old start end v at → EndedAs o output.old output.new start end v at result }
{
    if end < at {
        return None;
    }
    // What is stored is never missed.
    put_head(output, start, at, Kind::Answer, true);
    Some(at as u32)
}

// The output words used then, if the answer fits, and the steps left; or a stop.
pub(crate) fn write_answer(
    program: &[u32],
    scratch: &mut [u32],
    output: &mut [u32],
    state: State,
    params: u32,
    used: u32,
) -> Result<(Option<u32>, u32), Stopped>
    requires { (P : Program) × (p : Path) × (cs : List ChoicePoint) × Answering P program.now scratch.old output.old state p cs params used }
    ensures { (P : Program) (p : Path) (cs : List ChoicePoint) → Answering P program.now scratch.old output.old state p cs params used
        → AnsweredAs P program.now scratch.old output.old scratch.new output.new state p cs used (answer p params state.steps) result }
{
    let left = look_parameters(program, scratch, params, state.steps)?;
    let start = used as usize;
    let end = output.len().min(MOST_OUTPUT);
    let top = name_parameters(program, scratch, params);
    let first = begin_answer(program, scratch, output, params, start, end);
    let added = add_constraints(
        program,
        scratch,
        output,
        state.constraints,
        state.trail,
        first,
        end,
        first,
        left,
    );
    clear_names(scratch, top);
    let (at, rest) = added?;
    Ok((end_answer(output, start, end, at), rest))
}
