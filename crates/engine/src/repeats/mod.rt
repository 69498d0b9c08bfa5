// Whether an answer repeats an earlier one.
mod hash;
mod index;
pub(crate) mod repeated;
mod same;
