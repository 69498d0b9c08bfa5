// Whether an answer that has just been written repeats an earlier one of the run.
ghost use Rattle.std.specs.Prelude.{List, ℕ, ◌<◌};
ghost use Rattle.engine.specs.Index.{Comparing, ComparedAs};

use crate::repeats::index::{Entered, enter, fitted};
use crate::repeats::same::among;

// With the index's length afterwards.
#[derive(Clone, Copy)]
pub(crate) enum Compared {
    Repeated(u32),
    New(u32),
}

// Compares with all answers one after the other: there is no index, or it is given up.
fn compare_all(output: &mut [u32], used: usize, next: usize, end: usize, answers: u32) -> Compared
    requires { (answers < 4294967295) × ((ws : List (List ℕ)) × (v : List ℕ) × Comparing output.old used next end 0 ws v) }
    ensures { (ws : List (List ℕ)) (v : List ℕ) → Comparing output.old used next end 0 ws v
        → ComparedAs output.old output.new used next end ws v result }
{
    if among(output, used, next) {
        return Compared::Repeated(0);
    }
    Compared::New(fitted(output, next, end, answers + 1, 0))
}

// Compares the answer from `used` up to `next` with the answers before it, of which there are so many. The last `index` words up to `end` are their index.
pub(crate) fn repeated(
    output: &mut [u32],
    used: u32,
    next: u32,
    end: usize,
    answers: u32,
    index: u32,
) -> Compared
    requires { (answers < 4294967295) × ((ws : List (List ℕ)) × (v : List ℕ) × Comparing output.old used next end index ws v) }
    ensures { (ws : List (List ℕ)) (v : List ℕ) → Comparing output.old used next end index ws v
        → ComparedAs output.old output.new used next end ws v result }
{
    let start = used as usize;
    let behind = next as usize;
    let size = index as usize;
    if size == 0 {
        return compare_all(output, start, behind, end, answers);
    }
    if end - behind < size {
        return compare_all(output, start, behind, end, answers);
    }
    match enter(output, start, behind, end - size, size) {
        Entered::Repeated => Compared::Repeated(index),
        Entered::New => Compared::New(fitted(output, behind, end, answers + 1, index)),
        Entered::Lost => compare_all(output, start, behind, end, answers),
    }
}
