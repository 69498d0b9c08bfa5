// An answer compared word by word.
ghost use Rattle.std.specs.Prelude.{◌≡◌, List, ℕ, ◌+◌, ◌≤◌, length};
ghost use Rattle.semantics.specs.Answer.{any_same};
ghost use Rattle.engine.specs.Term.{Room};
ghost use Rattle.engine.specs.Lines.{Whole, Stretch, Rows};
ghost use Rattle.engine.specs.Index.{Standing};

use word::Word;

// Whether the words of an answer stand at `place` too. A comparison of slices by the library took runs with no room for an index up to 2.4 times as long: most answers differ in their first words.
#[inline(always)]
pub(crate) fn same(words: &[u32], place: usize, answer: &[u32]) -> bool
    requires { place + length answer.now ≤ length words.now }
    ensures { Standing words.now place answer.now result }
{
    for i in 0..answer.len() {
        if words[place + i] != answer[i] {
            return false;
        }
    }
    true
}

// Whether the answer from `used` up to `next` is among those before it, looked at one after the other. A function of its own, so that its loop has the registers.
#[inline(never)]
pub(crate) fn among(words: &[u32], used: usize, next: usize) -> bool
    requires { (ws : List (List ℕ)) × (v : List ℕ) × Rows words.now 0 used ws × Stretch words.now used next v × Whole v × Room words.now next }
    ensures { (ws : List (List ℕ)) (v : List ℕ) → Rows words.now 0 used ws → Stretch words.now used next v → Whole v → result ≡ any_same v ws }
{
    let mut place = 0;
    while place < used {
        if same(words, place, &words[used..next]) {
            return true;
        }
        place += 1 + Word::from_bits(words[place]).payload() as usize;
    }
    false
}
