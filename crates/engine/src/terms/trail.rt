// Binding a variable, and undoing: the trail holds the bound variables in the order of binding.
ghost use Rattle.std.specs.Prelude.{◌≡◌, List, ℕ, ◌+◌, ◌<◌, ◌≤◌, length};
ghost use Rattle.rules.specs.Settings.{scratch_words};
ghost use Rattle.semantics.specs.Substitution.{Substitution};
ghost use Rattle.engine.specs.Layout.{most_variables, references};
ghost use Rattle.engine.specs.Memory.{bound};
ghost use Rattle.engine.specs.Trail.{Trailed, Undone};

use crate::layout::TRAIL;

// Binds an open variable to a term, with so many entries on the trail. Returns the entries then: each variable was open when bound, so the trail never runs over.
pub(crate) fn bind(scratch: &mut [u32], variable: u32, term: u32, trail: u32) -> u32
    requires { (scratch_words ≤ length scratch.old) × (variable < most_variables) × (trail < most_variables) × (term < references) }
    ensures { (result ≡ trail + 1) × (scratch.new ≡ bound scratch.old variable term trail) }
{
    scratch[variable as usize] = term + 1;
    scratch[TRAIL + trail as usize] = variable;
    trail + 1
}

// Takes the trail back to `mark` entries, the last first, and opens their variables: the time is that of what was bound.
pub(crate) fn undo(scratch: &mut [u32], mark: u32, trail: u32)
    requires { (ws : List ℕ) × (new : Substitution) × (bs : Substitution) × Trailed ws scratch.old new bs mark trail }
    ensures { (ws : List ℕ) (new bs : Substitution) → Trailed ws scratch.old new bs mark trail → Undone ws scratch.old scratch.new bs }
{
    for top in (mark..trail).rev() {
        let variable = scratch[TRAIL + top as usize];
        scratch[variable as usize] = 0;
    }
}
