#![tactic(auto)]

// No code: what a run is, in specs/, and the theorems about it, in proofs/.
