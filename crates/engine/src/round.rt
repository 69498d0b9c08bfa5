// One round: from answer to answer, up to its end.
ghost use Rattle.std.specs.Prelude.{◌≡◌, List, ℕ};
ghost use Rattle.rules.specs.Syntax.{Program, Relation};
ghost use Rattle.semantics.specs.Path.{Path, ChoicePoint};
ghost use Rattle.semantics.specs.Answer.{answer};
ghost use Rattle.semantics.specs.Round as definition;
ghost use Rattle.engine.specs.Report.{end_says};
ghost use Rattle.engine.specs.Steps.{stop_of};
ghost use Rattle.engine.specs.Take.{PathHeld};
ghost use Rattle.semantics.specs.Substitution.{argument};
ghost use Rattle.engine.specs.Rounds.{Clean, FilledAs, IndexAs, Starting, RoundedAs, Listing, Giving, AnswerGivenAs};

use crate::layout::MOST_OUTPUT;
use crate::repeats::repeated::{Compared, repeated};
use crate::report::End;
use crate::search::choice::backtrack;
use crate::search::constrain::with_counts;
use crate::search::search::search;
use crate::search::state::{Searched, State};
use crate::search::table::relation;
use crate::steps::{Stop, Stopped};
use crate::terms::trail::undo;
use crate::writer::answer::write_answer;

// How far the output is filled: the words used, the answers, and the length of their index at the end of its usable words, 0 if there is none.
#[derive(Clone, Copy)]
pub struct Filled {
    pub used: u32,
    pub answers: u32,
    pub index: u32,
}

#[derive(Clone, Copy)]
pub struct Tally {
    // The steps left.
    pub left: u32,
    pub filled: Filled,
}

// A completed round, with the number of branches it cut.
#[derive(Clone, Copy)]
pub struct Completed {
    pub tally: Tally,
    pub cuts: u32,
}

// A round that was broken off.
#[derive(Clone, Copy)]
pub struct Broken {
    pub end: End,
    pub tally: Tally,
}

// What comes of an answer: how far the output is filled then, and the state; with the goal to be taken next, by its reference, if the round is not over.
#[derive(Clone, Copy)]
struct Given {
    filled: Filled,
    state: State,
    goal: Option<u32>,
}

fn end_of(stop: Stop) -> End
    ensures { end_says result ≡ definition.end_of (stop_of stop) }
{
    match stop {
        Stop::Steps => End::Steps,
        Stop::Path(bound) => End::Path(bound),
    }
}

fn break_off(end: End, left: u32, filled: Filled) -> Broken
    ensures { result ≡ record { end = end; tally = record { left = left; filled = filled } } }
{
    Broken {
        end,
        tally: Tally { left, filled },
    }
}

// A round that met a stop.
fn stop_round(stopped: Stopped, filled: Filled) -> Broken
    ensures { (end_says result.end ≡ definition.end_of (stop_of stopped.why)) × (result.tally ≡ record { left = stopped.left; filled = filled }) }
{
    break_off(end_of(stopped.why), stopped.left, filled)
}

// The round is completed: all that is bound is undone for the next.
fn complete(scratch: &mut [u32], state: State, filled: Filled, cuts: u32) -> Completed
    requires { (P : Program) × (ws : List ℕ) × (p : Path) × (cs : List ChoicePoint) × PathHeld P ws scratch.old state p cs }
    ensures { (result ≡ record { tally = record { left = state.steps; filled = filled }; cuts = cuts })
        × ((P : Program) (ws : List ℕ) (p : Path) (cs : List ChoicePoint) → PathHeld P ws scratch.old state p cs → Clean ws scratch.new P) }
{
    undo(scratch, 0, state.trail);
    Completed {
        tally: Tally {
            left: state.steps,
            filled,
        },
        cuts,
    }
}

// The output with the answer that was written up to `next`, or without it if it repeats an earlier one of the run.
fn list_answer(output: &mut [u32], filled: Filled, next: u32) -> Filled
    requires { (o : List ℕ) × (a : definition.Tally) × (ws : List ℕ) × Listing o output.old filled next a ws }
    ensures { (o : List ℕ) (k l : ℕ) (a : definition.Tally) (ws : List ℕ) → Listing o output.old filled next a ws
        → FilledAs output.new result (definition.list_answer (definition.once argument) a k l ws) × IndexAs output.new result (definition.list_answer (definition.once argument) a k l ws) }
{
    let end = output.len().min(MOST_OUTPUT);
    match repeated(output, filled.used, next, end, filled.answers, filled.index) {
        Compared::Repeated(index) => Filled {
            used: filled.used,
            answers: filled.answers,
            index,
        },
        Compared::New(index) => Filled {
            used: next,
            answers: filled.answers + 1,
            index,
        },
    }
}

// A path gives its answer, behind those before it, and is left.
fn give(
    program: &[u32],
    scratch: &mut [u32],
    output: &mut [u32],
    st: State,
    params: u32,
    filled: Filled,
    cuts: u32,
) -> Result<Given, Broken>
    requires { (P : Program) × (p : Path) × (cs : List ChoicePoint) × (a : definition.Tally) × Giving P program.now scratch.old output.old st p cs params filled cuts a }
    ensures { (P : Program) (k : ℕ) (p : Path) (cs : List ChoicePoint) (a : definition.Tally)
        → Giving P program.now scratch.old output.old st p cs params filled cuts a
        → AnswerGivenAs P program.now scratch.new output.new st cuts (definition.give (definition.once argument) params k cs a (answer p params st.steps)) result }
{
    match write_answer(program, scratch, output, st, params, filled.used) {
        Err(stopped) => Err(stop_round(stopped, filled)),
        Ok((None, left)) => Err(break_off(End::Output, left, filled)),
        Ok((Some(next), left)) => {
            let listed = list_answer(output, filled, next);
            let after = with_counts(st, st.trail, st.constraints, left);
            match backtrack(program, scratch, after) {
                None => Ok(Given {
                    filled: listed,
                    state: after,
                    goal: None,
                }),
                Some((resumed, goal)) => Ok(Given {
                    filled: listed,
                    state: resumed,
                    goal: Some(goal),
                }),
            }
        }
    }
}

// A round of this number, asked of the relation `query`.
pub(crate) fn round(
    program: &[u32],
    scratch: &mut [u32],
    output: &mut [u32],
    query: u32,
    number: u32,
    tally: Tally,
) -> Result<Completed, Broken>
    requires { (P : Program) × (R : Relation) × (a : definition.Tally) × Starting program.now scratch.old output.old P query R number tally a }
    ensures { (P : Program) (R : Relation) (a : definition.Tally) → Starting program.now scratch.old output.old P query R number tally a
        → RoundedAs program.now scratch.new output.new P (definition.one_round P R number a.room a.left a.written) result }
{
    let asked = relation(program, scratch, query);
    let params = asked.params;
    let mut state = State {
        head: 0,
        trail: 0,
        variables: asked.vars,
        goals: 1,
        constraints: 0,
        calls: 0,
        choices: 0,
        steps: tally.left,
    };
    let mut goal = asked.body;
    let mut filled = tally.filled;
    let mut cuts = 0;
    loop {
        let searched = match search(program, scratch, state, goal, number, cuts) {
            Ok(searched) => searched,
            Err(stopped) => {
                return Err(stop_round(stopped, filled));
            }
        };
        match searched {
            Searched::Over(last, cut) => {
                return Ok(complete(scratch, last, filled, cut));
            }
            Searched::Answer(last, cut) => {
                let given = give(program, scratch, output, last, params, filled, cut)?;
                filled = given.filled;
                state = given.state;
                cuts = cut;
                match given.goal {
                    None => {
                        return Ok(complete(scratch, state, filled, cuts));
                    }
                    Some(next) => {
                        goal = next;
                    }
                }
            }
        }
    }
}
