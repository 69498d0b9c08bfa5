// The occurs check (document 02, Note 10): it enters each bound variable at most one time.
//
// The variables entered are marked, a bit for each, in words that are made for this check alone. Most checks enter no bound variable: a check begins without marks, and makes them where it
// comes to the first value of a bound variable that is a pair; from the pair of its own loop that was under way it goes on with them.
ghost use Rattle.std.specs.Prelude.{false, ◌≡◌, ◌<◌, ◌≤◌, length};
ghost use Rattle.rules.specs.Syntax.{Term};
ghost use Rattle.semantics.specs.Substitution.{Substitution};
ghost use Rattle.engine.specs.Layout.{most_variables};
ghost use Rattle.engine.specs.Walk.{Follows};
ghost use Rattle.engine.specs.Occurs.{mark_words, marked, with_mark, MarkedNow, OccursAs};
ghost use Rattle.engine.specs.Entering.{occurs_checks, unmarked_checks};

use crate::steps::{NO_STEPS, Stopped};
use crate::terms::traverse::{Entering, leaf_word, traverse};
use crate::terms::walk::walk;
use word::Kind;

// The words of a check's marks: a bit for each of a path's 2,048 variables.
const MARK_WORDS: usize = 64;

fn is_marked(marks: &[u32], variable: u32) -> bool
    requires { (variable < most_variables) × (mark_words ≤ length marks.now) }
    ensures { result ≡ marked marks.now variable }
{
    let word = marks[(variable / 32) as usize];
    (word >> (variable % 32)) % 2 == 1
}

fn mark(marks: &mut [u32], variable: u32)
    requires { (variable < most_variables) × (mark_words ≤ length marks.old) × (marked marks.old variable ≡ false) }
    ensures { marks.new ≡ with_mark marks.old variable }
{
    let at = (variable / 32) as usize;
    let word = marks[at];
    marks[at] = word + (1 << (variable % 32));
}

// Is the variable entered now? Not if it was before.
fn enters_now(marks: &mut [u32], variable: u32) -> bool
    requires { (variable < most_variables) × (mark_words ≤ length marks.old) }
    ensures { MarkedNow marks.old marks.new variable result }
{
    if is_marked(marks, variable) {
        return false;
    }
    mark(marks, variable);
    true
}

// The check enters each bound variable at most one time.
#[derive(Drop)]
struct Once {
    marks: [u32; MARK_WORDS],
}

impl Entering for Once {
    ghost traversal = { occurs_checks };

    #[inline(always)]
    fn enters(&mut self, through: Option<u32>) -> Result<bool, Stopped> {
        match through {
            Some(variable) => Ok(enters_now(&mut self.marks, variable)),
            None => Ok(true),
        }
    }
}

// Without marks it gives up where there is a bound variable to enter.
#[derive(Clone, Copy)]
struct Unmarked {
    bound: bool,
}

impl Entering for Unmarked {
    ghost traversal = { unmarked_checks };

    #[inline(always)]
    fn enters(&mut self, through: Option<u32>) -> Result<bool, Stopped> {
        match through {
            Some(_) => {
                self.bound = true;
                Err(NO_STEPS)
            }
            None => Ok(true),
        }
    }
}

// Goes on with marks, of which none is made yet. The result is taken apart and put together, so that one that is told without marks need not stand in memory where the call's does.
#[inline(always)]
fn check_marking(
    program: &[u32],
    scratch: &[u32],
    sought: u32,
    term: u32,
    steps: u32,
) -> Result<(bool, u32), Stopped>
    requires { (sought < most_variables) × ((bs : Substitution) × (t : Term) × Follows program.now scratch.now bs term t) }
    ensures { (bs : Substitution) (t : Term) → Follows program.now scratch.now bs term t → OccursAs sought bs t steps result }
{
    let mut once = Once {
        marks: [0; MARK_WORDS],
    };
    let (found, left) = traverse(&mut once, program, scratch, sought, term, 0, steps)?;
    Ok((found, left))
}

// Does the variable occur in the term? It goes along second parts by itself, and into first parts that are pairs, as far as that needs no marks: a long term is gone on
// with from where they are made, and not from its beginning again.
#[inline(always)]
fn check_pairs(
    program: &[u32],
    scratch: &[u32],
    sought: u32,
    term: u32,
    steps: u32,
) -> Result<(bool, u32), Stopped>
    requires { (sought < most_variables) × ((bs : Substitution) × (t : Term) × Follows program.now scratch.now bs term t) }
    ensures { (bs : Substitution) (t : Term) → Follows program.now scratch.now bs term t → OccursAs sought bs t steps result }
{
    let mut at = term;
    let mut left = steps;
    loop {
        if left == 0 {
            return Err(NO_STEPS);
        }
        let node = walk(program, scratch, at);
        if node.kind != Kind::Pair {
            if leaf_word(node) == sought {
                return Ok((true, left - 1));
            }
            return Ok((false, left - 1));
        }
        if node.through.is_some() {
            return check_marking(program, scratch, sought, at, left);
        }
        let rest = left - 1;
        if rest == 0 {
            return Err(NO_STEPS);
        }
        let second = node.at + 1 + node.payload;
        let first = walk(program, scratch, node.at + 1);
        if first.kind != Kind::Pair {
            if leaf_word(first) == sought {
                return Ok((true, rest - 1));
            }
            left = rest - 1;
            at = second;
            continue;
        }
        if first.through.is_some() {
            return check_marking(program, scratch, sought, at, left);
        }
        let mut unmarked = Unmarked { bound: false };
        let checked = traverse(&mut unmarked, program, scratch, sought, first.at, 1, rest);
        if unmarked.bound {
            return check_marking(program, scratch, sought, at, left);
        }
        let (found, after) = checked?;
        if found {
            return Ok((true, after));
        }
        left = after;
        at = second;
    }
}

// Does the variable occur in the term? With the steps left. Most terms that are bound are leaves: they are looked at before the loop, whose registers unification has for itself then.
#[inline(always)]
pub(crate) fn occurs(
    program: &[u32],
    scratch: &[u32],
    sought: u32,
    term: u32,
    steps: u32,
) -> Result<(bool, u32), Stopped>
    requires { (sought < most_variables) × ((bs : Substitution) × (t : Term) × Follows program.now scratch.now bs term t) }
    ensures { (bs : Substitution) (t : Term) → Follows program.now scratch.now bs term t → OccursAs sought bs t steps result }
{
    if steps == 0 {
        return Err(NO_STEPS);
    }
    let node = walk(program, scratch, term);
    if node.kind != Kind::Pair {
        return Ok((leaf_word(node) == sought, steps - 1));
    }
    let (found, left) = check_pairs(program, scratch, sought, term, steps)?;
    Ok((found, left))
}
