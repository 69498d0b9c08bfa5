// The nodes of a followed term, first part before second, up to the first find: the traversal of an absento review and of the writer.
ghost use Rattle.rules.specs.Syntax.{Term};
ghost use Rattle.semantics.specs.Substitution.{Substitution};
ghost use Rattle.engine.specs.Walk.{Follows};
ghost use Rattle.engine.specs.Scan.{ScanAs};
ghost use Rattle.engine.specs.Entering.{scans};

use crate::steps::{NO_STEPS, Stopped};
use crate::terms::traverse::{Entering, leaf_word, traverse};
use crate::terms::walk::walk;
use word::Kind;

// A scan enters each pair.
#[derive(Clone, Copy)]
struct Every;

impl Entering for Every {
    ghost traversal = { scans };

    #[inline(always)]
    fn enters(&mut self, _through: Option<u32>) -> Result<bool, Stopped> {
        Ok(true)
    }
}

// Is the node with the word `sought` in the term? With the steps left. A word of kind pair is never met. A leaf needs no traversal.
#[inline(always)]
pub(crate) fn scan(
    program: &[u32],
    scratch: &[u32],
    sought: u32,
    term: u32,
    steps: u32,
) -> Result<(bool, u32), Stopped>
    requires { (bs : Substitution) × (t : Term) × Follows program.now scratch.now bs term t }
    ensures { (bs : Substitution) (t : Term) → Follows program.now scratch.now bs term t → ScanAs sought bs t steps result }
{
    if steps == 0 {
        return Err(NO_STEPS);
    }
    let node = walk(program, scratch, term);
    if node.kind != Kind::Pair {
        return Ok((leaf_word(node) == sought, steps - 1));
    }
    // Taken apart and put together, so that a leaf's result need not stand in memory where the call's does.
    let (found, left) = traverse(&mut Every, program, scratch, sought, term, 0, steps)?;
    Ok((found, left))
}
