// The operators, named as in expression.rs of the crate aml. Bytes are lent beside each operand.
// No public function has a `requires`: every argument is checked, and a refusal changes no byte.
#![tactic(auto)]

pub mod buffer; // building a buffer
pub mod compare; // comparing two values
pub mod concat; // Concat, ConcatRes
pub mod mid; // Mid
pub mod number; // Add, And, increment, decrement, shifts
