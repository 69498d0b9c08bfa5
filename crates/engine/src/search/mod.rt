// The search: goals taken, choice points, turn after turn up to a path that gives an answer.
pub(crate) mod call;
pub(crate) mod choice;
pub(crate) mod constrain;
pub(crate) mod goal;
pub(crate) mod search;
pub(crate) mod state;
pub(crate) mod table;
pub(crate) mod take;
pub(crate) mod turn;
