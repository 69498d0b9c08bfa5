// Unification: a pair of terms is looked at, and pairs of second parts wait in the scratch.
ghost use Rattle.std.specs.Prelude.{List, ℕ, ◌<◌};
ghost use Rattle.rules.specs.Syntax.{Term};
ghost use Rattle.semantics.specs.Substitution.{Substitution};
ghost use Rattle.semantics.specs.Unify as definition;
ghost use Rattle.engine.specs.Reference.{Stands};
ghost use Rattle.engine.specs.Walk.{IsNode};
ghost use Rattle.engine.specs.Unify.{LookedAs, TwoTerms, PairUnifiedAs, UnifiedAs};

use crate::layout::{MOST_PAIRS, PAIRS};
use crate::report::Bound;
use crate::steps::{NO_STEPS, Stopped, at_bound};
use crate::terms::occurs::occurs;
use crate::terms::trail::bind;
use crate::terms::walk::{Walked, variable_at, walk};
use word::Kind;

// What two followed terms come to: a variable is to be bound to a term, or the parts (first and second of the one, then of the other) are to be equal.
#[derive(Clone, Copy)]
pub enum Looked {
    Fails,
    Agrees,
    Binds(u32, u32),
    Parts(u32, u32, u32, u32),
}

// What one pair comes to: it fails, unification goes on with so many entries on the trail, or parts are to be equal. The last number of the first two is the steps left.
#[derive(Clone, Copy)]
pub enum PairUnified {
    Fails(u32),
    Goes(u32, u32),
    Parts(u32, u32, u32, u32),
}

// How unification ended: the entries of the trail then, which its caller may have to take back however it ended; and whether the terms are equal now, with the steps left, or a stop.
#[derive(Clone, Copy)]
pub struct Unified {
    pub trail: u32,
    pub outcome: Result<(bool, u32), Stopped>,
}

// Two followed terms are looked at.
fn look(a: Walked, b: Walked) -> Looked
    requires { (ws : List ℕ) × (u : Term) × (v : Term) × IsNode ws a × IsNode ws b × Stands ws a.at u × Stands ws b.at v }
    ensures { (ws : List ℕ) (u v : Term) → IsNode ws a → IsNode ws b → Stands ws a.at u → Stands ws b.at v → LookedAs ws (definition.look u v) result }
{
    if a.kind == Kind::Variable {
        let x = variable_at(a.at, a.payload);
        if b.kind == Kind::Variable && variable_at(b.at, b.payload) == x {
            return Looked::Agrees;
        }
        return Looked::Binds(x, b.at);
    }
    if b.kind == Kind::Variable {
        return Looked::Binds(variable_at(b.at, b.payload), a.at);
    }
    if a.kind == Kind::Pair {
        if b.kind != Kind::Pair {
            return Looked::Fails;
        }
        return Looked::Parts(
            a.at + 1,
            a.at + 1 + a.payload,
            b.at + 1,
            b.at + 1 + b.payload,
        );
    }
    if a.bits != b.bits {
        return Looked::Fails;
    }
    Looked::Agrees
}

// One pair is unified: its terms are followed and looked at, and a variable is bound unless it occurs in the other side.
fn unify_pair(
    program: &[u32],
    scratch: &mut [u32],
    first: u32,
    second: u32,
    trail: u32,
    steps: u32,
) -> Result<PairUnified, Stopped>
    requires { (0 < steps) × ((bs : Substitution) × (u : Term) × (v : Term) × TwoTerms program.now scratch.old bs first u second v trail) }
    ensures { (bs : Substitution) (u v : Term) → TwoTerms program.now scratch.old bs first u second v trail
        → PairUnifiedAs program.now scratch.old scratch.new bs u v steps result }
{
    let a = walk(program, scratch, first);
    let b = walk(program, scratch, second);
    match look(a, b) {
        Looked::Fails => Ok(PairUnified::Fails(steps - 1)),
        Looked::Agrees => Ok(PairUnified::Goes(trail, steps - 1)),
        Looked::Parts(c, d, e, f) => Ok(PairUnified::Parts(c, d, e, f)),
        Looked::Binds(variable, term) => {
            let (found, rest) = occurs(program, scratch, variable, term, steps - 1)?;
            if found {
                return Ok(PairUnified::Fails(rest));
            }
            let grown = bind(scratch, variable, term, trail);
            Ok(PairUnified::Goes(grown, rest))
        }
    }
}

// Makes two terms equal, with `mark` entries on the trail. The caller takes the bindings back where it fails or stops, or was a trial.
pub(crate) fn unify(
    program: &[u32],
    scratch: &mut [u32],
    first: u32,
    second: u32,
    mark: u32,
    steps: u32,
) -> Unified
    requires { (bs : Substitution) × (u : Term) × (v : Term) × TwoTerms program.now scratch.old bs first u second v mark }
    ensures { (bs : Substitution) (u v : Term) → TwoTerms program.now scratch.old bs first u second v mark
        → UnifiedAs program.now scratch.old scratch.new bs (definition.unify_terms bs u v steps) result }
{
    let mut a = first;
    let mut b = second;
    let mut waiting = 0;
    let mut trail = mark;
    let mut rest = steps;
    loop {
        if rest == 0 {
            return Unified {
                trail,
                outcome: Err(NO_STEPS),
            };
        }
        match unify_pair(program, scratch, a, b, trail, rest) {
            Err(stopped) => {
                return Unified {
                    trail,
                    outcome: Err(stopped),
                };
            }
            Ok(PairUnified::Fails(after)) => {
                return Unified {
                    trail,
                    outcome: Ok((false, after)),
                };
            }
            Ok(PairUnified::Goes(grown, after)) => {
                if waiting == 0 {
                    return Unified {
                        trail: grown,
                        outcome: Ok((true, after)),
                    };
                }
                waiting -= 1;
                let at = PAIRS + 2 * waiting;
                a = scratch[at];
                b = scratch[at + 1];
                trail = grown;
                rest = after;
            }
            Ok(PairUnified::Parts(c, d, e, f)) => {
                if MOST_PAIRS <= waiting {
                    return Unified {
                        trail,
                        outcome: Err(at_bound(Bound::Waiting, rest)),
                    };
                }
                let at = PAIRS + 2 * waiting;
                scratch[at] = d;
                scratch[at + 1] = f;
                waiting += 1;
                a = c;
                b = e;
                rest -= 1;
            }
        }
    }
}
