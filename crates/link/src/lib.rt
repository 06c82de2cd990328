// What a host in C or Rust links: the layer's calls over numbers and lent bytes, each answered by a small struct of numbers. Only integers, structs
// of them and lent bytes cross, so no bit pattern of a host is undefined here.
// No public function has a `requires`: a host may pass anything, and a refusal changes no byte.
#![tactic(auto)]

pub mod answer; // the numbers of an answer
pub mod buffers; // buffer fields
pub mod conversions; // values and what they convert to
pub mod given; // a host's numbers as values, types and fields
pub mod operators; // the operators
pub mod regions; // field units, and single units of a region
pub mod tables; // the task table
