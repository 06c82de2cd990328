// The task table: up to four tasks read and write field units of one region, one load or store a step.
// No public function has a `requires`: every argument is checked, and a refusal changes no byte and nothing in the table.
#![tactic(auto)]

pub mod one; // what start and step do with the one task that they name
pub mod table; // the table; start and step
pub mod well; // which tables are malformed
