// Conditions 7 and 8: one pass over the calls of a program whose structure is read already.
ghost use Rattle.std.specs.Prelude.{◌≡◌, List, ◌∷◌, ℕ, ◌+◌, length};
ghost use Rattle.std.proofs.Math.ListN.{get_elem?};
ghost use Rattle.rules.specs.Syntax.{Term, call, Program};
ghost use Rattle.rules.specs.Written.{term_words};
ghost use Rattle.rules.specs.Calls.{relations_fault};
ghost use Rattle.rules.specs.Accept.{judge};
ghost use Rattle.rules.specs.Verdict.{said, meaning};
ghost use Rattle.rules.specs.Inner.{outcome, GoodTermAt, GoodTermsAt, RelationsAt, params_of, Item, goal, Rest, Moves};

use crate::part::part_at;
use crate::{Condition, Refusal};
use word::Kind;

// Past the term at `at`: a pair's first part is skipped by its payload.
fn skip_term(program: &[u32], start: usize) -> usize
    requires { (t : Term) × GoodTermAt program.now start t }
    ensures { (t : Term) → GoodTermAt program.now start t → result ≡ start + length (term_words t) }
{
    let mut at = start;
    loop {
        let part = part_at(program, at);
        if part.kind != Kind::Pair {
            return at + 1;
        }
        at = at + 1 + part.size;
    }
}

// How many terms stand between `start` and `end`.
fn count_terms(program: &[u32], start: usize, end: usize) -> usize
    requires { (ts : List Term) × GoodTermsAt program.now start end ts }
    ensures { (ts : List Term) → GoodTermsAt program.now start end ts → result ≡ length ts }
{
    let mut at = start;
    let mut count = 0;
    while at < end {
        at = skip_term(program, at);
        count += 1;
    }
    count
}

// The parameters of relation `wanted`, if it is there, found by going from relation to relation.
fn find_params(program: &[u32], wanted: usize) -> Option<usize>
    requires { (P : Program) × RelationsAt program.now 0 P }
    ensures { (P : Program) → RelationsAt program.now 0 P → result ≡ params_of (get_elem? P wanted) }
{
    let mut at = 0;
    for _ in 0..wanted {
        if program.len() <= at {
            return None;
        }
        at = at + 1 + part_at(program, at).size;
    }
    if program.len() <= at {
        return None;
    }
    Some(part_at(program, at + 1).size)
}

// The call at `at`: the place after it, or its fault.
fn check_call(program: &[u32], at: usize) -> Result<usize, Refusal>
    requires { (P : Program) × (vars : ℕ) × (n : ℕ) × (ts : List Term) × (is : List Item) × Rest program.now P at (goal vars (call n ts) ∷ is) }
    ensures { (P : Program) (vars n : ℕ) (ts : List Term) (is : List Item) → Rest program.now P at (goal vars (call n ts) ∷ is) → Moves program.now P at (goal vars (call n ts) ∷ is) (outcome result) }
{
    let end = at + 1 + part_at(program, at).size;
    let wanted = part_at(program, at + 1).size;
    let Some(params) = find_params(program, wanted) else {
        return Err(Condition::UnknownRelation.at(at));
    };
    if count_terms(program, at + 2, end) != params {
        return Err(Condition::ArgumentCount.at(at));
    }
    Ok(end)
}

// The relation or goal at `at`: the place of the next one, inside it or after it, or the fault of a call.
fn check_item(program: &[u32], at: usize) -> Result<usize, Refusal>
    requires { (P : Program) × (i : Item) × (is : List Item) × Rest program.now P at (i ∷ is) }
    ensures { (P : Program) (i : Item) (is : List Item) → Rest program.now P at (i ∷ is) → Moves program.now P at (i ∷ is) (outcome result) }
{
    let part = part_at(program, at);
    match part.kind {
        Kind::Relation => Ok(at + 3),
        Kind::Conjunction | Kind::Disjunction => Ok(at + 1),
        Kind::Call => check_call(program, at),
        _ => Ok(at + 1 + part.size),
    }
}

// All calls.
pub(crate) fn check_calls(program: &[u32]) -> Result<(), Refusal>
    requires { (P : Program) × RelationsAt program.now 0 P }
    ensures { (P : Program) → RelationsAt program.now 0 P → meaning result ≡ said (judge P (relations_fault P P 0)) }
{
    let mut at = 0;
    while at < program.len() {
        at = check_item(program, at)?;
    }
    Ok(())
}
