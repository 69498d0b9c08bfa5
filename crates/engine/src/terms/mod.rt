// Terms by reference: followed through bindings, looked through, unified; constraints reviewed.
pub(crate) mod occurs;
pub(crate) mod review;
pub(crate) mod scan;
pub(crate) mod trail;
pub(crate) mod traverse;
pub(crate) mod unify;
pub(crate) mod walk;
