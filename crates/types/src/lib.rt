// What the layer's values, fields and refusals are. Names are those of the crate aml (value.rs); numbers are document 01's.
// No public function has a `requires`.
#![tactic(auto)]

pub mod flags; // a field's flags byte: access type, lock rule, update rule
pub mod refusal; // why a call was refused
pub mod value; // values, their types, the spaces a region lies in
