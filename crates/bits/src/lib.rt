// Runs of bits in byte slices, lowest first: bit k is bit k mod 8 of byte k div 8.
// No public function has a `requires`: past the end of a slice there are zeros to read, and nothing to write.
#![tactic(auto)]

pub mod bytes; // whole bytes, copied
pub mod long; // runs of any length, between slices
pub mod run; // runs of up to 64 bits, as numbers
pub mod unit; // 1, 2, 4 or 8 whole bytes
pub mod word; // bits of one number
