// The index of the answers: a hash table in the last words of the output that can be used.
ghost use Rattle.std.specs.Prelude.{◌≡◌, true, List, ℕ, ◌≤◌, ◌<◌};
ghost use Rattle.engine.specs.Lines.{Rows};
ghost use Rattle.engine.specs.Index.{next_slot, Table, Seeking, EnteredAs, BuiltAs, Fitting, FittedAs};

use crate::clear::clear;
use crate::repeats::hash::home;
use crate::repeats::same::same;
use word::Word;

// The first index is made with so many answers, and has so many slots.
const FIRST_ANSWERS: u32 = 8;

const FIRST_SLOTS: u32 = 32;

#[derive(Clone, Copy)]
pub(crate) enum Entered {
    // An answer with the same words was there.
    Repeated,
    // There was none, and the answer is entered now.
    New,
    // All slots are taken, by other answers.
    Lost,
}

// The slot behind another: behind the last comes the first.
fn next_slot(slot: usize, size: usize) -> usize
    requires { slot < size }
    ensures { result ≡ next_slot size slot }
{
    if slot + 1 == size {
        return 0;
    }
    slot + 1
}

// Seeks the answer from `start` up to `next` in the index of those before it, and enters it if it is not there.
pub(crate) fn enter(
    output: &mut [u32],
    start: usize,
    next: usize,
    table: usize,
    size: usize,
) -> Entered
    requires { (ws : List (List ℕ)) × (v : List ℕ) × Seeking output.old start next table size ws v }
    ensures { (ws : List (List ℕ)) (v : List ℕ) → Seeking output.old start next table size ws v
        → EnteredAs output.old output.new table size ws v result }
{
    let mut slot = home(&output[start..next], size);
    for _ in 0..size {
        let entry = output[table + slot] as usize;
        if entry == 0 {
            output[table + slot] = (start + 1) as u32;
            return Entered::New;
        }
        // Shared first: the part of it is taken from a slice that is lent to read.
        let words = &output[..];
        if same(words, entry - 1, &words[start..next]) {
            return Entered::Repeated;
        }
        slot = next_slot(slot, size);
    }
    Entered::Lost
}

// Makes an index of all answers up to `used`, or tells that one was not entered.
fn build(output: &mut [u32], used: usize, table: usize, size: usize) -> bool
    requires { Table output.old used table size × ((ws : List (List ℕ)) × Rows output.old 0 used ws) }
    ensures { (ws : List (List ℕ)) → Rows output.old 0 used ws → BuiltAs output.old output.new table size ws result }
{
    clear(output, table, table + size);
    let mut place = 0;
    while place < used {
        let words = Word::from_bits(output[place]).payload() as usize;
        let next = place + 1 + words;
        match enter(output, place, next, table, size) {
            Entered::New => {
                place = next;
            }
            Entered::Repeated | Entered::Lost => {
                return false;
            }
        }
    }
    true
}

// The length that an index of so many answers should have, if it has this now: more than twice as many slots as answers. One that was given up, or had no room with the eighth answer, is not made later.
fn wanted(answers: u32, index: u32) -> u32
    requires { index < 268435456 }
    ensures { (index ≤ result) × (result < 536870912) }
{
    if answers < index / 2 {
        return index;
    }
    if 0 < index {
        return 2 * index;
    }
    if answers == FIRST_ANSWERS {
        return FIRST_SLOTS;
    }
    0
}

// Whether a longer index is made, of so many slots with so many words free: only if as many words stay free, so that answers do not soon reach into it, or if seven eighths of the index are taken, or if there is none.
fn worthwhile(answers: u32, index: u32, free: usize, size: usize) -> bool
    ensures { result ≡ true → size ≤ free }
{
    if size <= free / 2 {
        return true;
    }
    if answers < index - index / 8 {
        return false;
    }
    size <= free
}

// The index's length from now on, with so many answers: a longer one is made if it is wanted and fits behind the answers. It is given up if an answer could not be entered, which does not happen, as there are more slots than answers and no two are the same; the promise does not need that.
pub(crate) fn fitted(output: &mut [u32], used: usize, end: usize, answers: u32, index: u32) -> u32
    requires { (ws : List (List ℕ)) × Fitting output.old used end index ws }
    ensures { (ws : List (List ℕ)) → Fitting output.old used end index ws → FittedAs output.old output.new used end ws result }
{
    let longer = wanted(answers, index);
    let size = longer as usize;
    if longer == index {
        return index;
    }
    if !worthwhile(answers, index, end - used, size) {
        return index;
    }
    if build(output, used, end - size, size) {
        return longer;
    }
    0
}
