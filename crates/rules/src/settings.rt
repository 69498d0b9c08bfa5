// The settings of a run, which are looked at before its program.
ghost use Rattle.std.specs.Prelude.{◌≡◌};
ghost use Rattle.rules.specs.Settings.{settings_good};

// The scratch words that a run takes at least and uses at most.
pub const SCRATCH_WORDS: usize = 12288;

// Are the round limit and the scratch's length good? If not, the run is refused by condition 9 of document 01.
pub fn settings_good(rounds: u32, scratch: usize) -> bool
    ensures { result ≡ settings_good rounds scratch }
{
    rounds <= 255 && SCRATCH_WORDS <= scratch
}
