// Field units: fields of a region, loaded and stored by whole access units.
// No public function has a `requires`: every argument is checked, and a refusal changes no byte.
#![tactic(auto)]

pub mod access; // one load or store: which it is, and where
pub mod check; // which fields are refused
mod checked; // an operation whose field is accepted
pub mod next; // the next single access of an operation
pub mod whole; // a whole read, a whole write
