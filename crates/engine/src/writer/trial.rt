// Takes a trial's bindings back and keeps what they were: right sides are listed as followed through the path's bindings alone.
ghost use Rattle.std.specs.Prelude.{List, ℕ, ◌≤◌, ◌<◌, length};
ghost use Rattle.rules.specs.Settings.{scratch_words};
ghost use Rattle.semantics.specs.Substitution.{Substitution};
ghost use Rattle.engine.specs.Layout.{most_variables};
ghost use Rattle.engine.specs.Trail.{Trailed};
ghost use Rattle.engine.specs.Trial.{HalfSet, AllKept};

use crate::layout::{PAIRS, TRAIL};

// Two variables to a word of the pairs' area, which no trial needs now: there can be 2,048.
pub(crate) fn keep_variable(scratch: &mut [u32], i: usize, x: u32)
    requires { (scratch_words ≤ length scratch.old) × (i < most_variables) × (x < most_variables) }
    ensures { HalfSet scratch.old scratch.new i x }
{
    let at = PAIRS + i / 2;
    let bits = scratch[at];
    if i % 2 == 0 {
        scratch[at] = bits / 65536 * 65536 + x;
        return;
    }
    scratch[at] = bits % 65536 + 65536 * x;
}

// A right side takes its variable's place on the trail.
pub(crate) fn keep_equations(scratch: &mut [u32], mark: u32, trail: u32)
    requires { (ws : List ℕ) × (new : Substitution) × (bs : Substitution) × Trailed ws scratch.old new bs mark trail }
    ensures { (ws : List ℕ) (new bs : Substitution) → Trailed ws scratch.old new bs mark trail → AllKept ws scratch.old scratch.new new bs mark }
{
    for top in (mark..trail).rev() {
        let at = TRAIL + top as usize;
        let x = scratch[at];
        scratch[at] = scratch[x as usize] - 1;
        scratch[x as usize] = 0;
        keep_variable(scratch, (top - mark) as usize, x);
    }
}
