// Lent words, set to 0.
ghost use Rattle.std.specs.Prelude.{◌≡◌};
ghost use Rattle.engine.specs.Run.{cleared};

// The words from `from` up to `to`, or up to the end, are 0 afterwards; all others stay.
pub(crate) fn clear(words: &mut [u32], from: usize, to: usize)
    ensures { words.new ≡ cleared words.old from to }
{
    let end = to.min(words.len());
    if from < end {
        words[from..end].fill(0);
    }
}
