// The nodes of a followed term, first part before second, up to the first find.
ghost use Rattle.std.specs.Prelude.{ℕ, ◌+◌, ◌<◌};
ghost use Rattle.word.specs.Kind.{kind_number};
ghost use Rattle.rules.specs.Syntax.{Term};
ghost use Rattle.semantics.specs.Substitution.{Substitution};
ghost use Rattle.engine.specs.Reference.{base_of};
ghost use Rattle.engine.specs.Walk.{Follows};
ghost use Rattle.engine.specs.Scan.{LeafWord};
ghost use Rattle.engine.specs.Traverse.{Traversal, Met, EntersAs, TraversedAs};

use crate::layout::MOST_NODES;
use crate::report::Bound;
use crate::steps::{NO_STEPS, Stopped, at_bound};
use crate::terms::walk::{Walked, variable_at, walk};
use word::Kind;

// The word by which a leaf is sought: an open variable has its number for a word, an atom its own.
pub(crate) fn leaf_word(node: Walked) -> u32
    requires { base_of node.at + node.payload < 4294967296 }
    ensures { LeafWord node.at node.bits (kind_number node.kind) node.payload result }
{
    if node.kind == Kind::Variable {
        return variable_at(node.at, node.payload);
    }
    node.bits
}

// Which pairs a traversal enters, by what was entered before; those that it does not, it passes as done.
pub(crate) trait Entering {
    ghost traversal: { (sought : ℕ) → (bs : Substitution) → Traversal Self sought bs };

    // Is a pair entered, of which the last bound variable on the way is told? If so, it is entered now. A traversal that gives up there says so by a stop, and in its own state.
    fn enters(&mut self, through: Option<u32>) -> Result<bool, Stopped>
        requires { (bs : Substitution) × (u : Term) × Met bs through u }
        ensures { (sought : ℕ) (bs : Substitution) (u : Term) (m : Met bs through u) (es : (traversal sought bs).Entered)
            → (traversal sought bs).Holds self.old es → EntersAs (traversal sought bs) self.new u m.left m.right es result };
}

// Is the node with the word `sought` in the term? With the steps left. A word of kind pair is never met. `waiting` nodes wait already.
// First parts that are pairs are a recursion, at most 512 deep; those that are leaves need no call. Second parts are a loop, so depth never follows the length of a list.
pub(crate) fn traverse<E: Entering>(
    entering: &mut E,
    program: &[u32],
    scratch: &[u32],
    sought: u32,
    term: u32,
    waiting: u32,
    steps: u32,
) -> Result<(bool, u32), Stopped>
    requires { (bs : Substitution) × (t : Term) × (es : (E.traversal sought bs).Entered) × Follows program.now scratch.now bs term t × (E.traversal sought bs).Holds entering.old es }
    ensures { (bs : Substitution) (t : Term) (es : (E.traversal sought bs).Entered) → Follows program.now scratch.now bs term t
        → (E.traversal sought bs).Holds entering.old es → TraversedAs (E.traversal sought bs) entering.new es t waiting steps result }
{
    let mut at = term;
    let mut left = steps;
    loop {
        if left == 0 {
            return Err(NO_STEPS);
        }
        let node = walk(program, scratch, at);
        if node.kind != Kind::Pair {
            if leaf_word(node) == sought {
                return Ok((true, left - 1));
            }
            return Ok((false, left - 1));
        }
        let enters_node = entering.enters(node.through)?;
        if !enters_node {
            return Ok((false, left - 1));
        }
        if MOST_NODES <= waiting {
            return Err(at_bound(Bound::Waiting, left));
        }
        left -= 1;
        if left == 0 {
            return Err(NO_STEPS);
        }
        at = node.at + 1 + node.payload;
        let first = walk(program, scratch, node.at + 1);
        if first.kind != Kind::Pair {
            left -= 1;
            if leaf_word(first) == sought {
                return Ok((true, left));
            }
            continue;
        }
        let enters_first = entering.enters(first.through)?;
        if !enters_first {
            left -= 1;
            continue;
        }
        let (found, rest) = traverse(
            entering,
            program,
            scratch,
            sought,
            first.at,
            waiting + 1,
            left,
        )?;
        if found {
            return Ok((true, rest));
        }
        left = rest;
    }
}
