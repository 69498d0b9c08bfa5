#![tactic(auto)]

// No code: document 01's table of refusals, in specs/, and that the reading refuses each example so, in proofs/.
