// The writer: the answer of a path, in words.
pub(crate) mod answer;
pub(crate) mod constraint;
pub(crate) mod line;
pub(crate) mod lines;
pub(crate) mod look;
pub(crate) mod names;
pub(crate) mod query;
pub(crate) mod term;
pub(crate) mod trial;
