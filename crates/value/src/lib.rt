// Conversions of values, as value.rs of the crate aml has them. Bytes are lent beside the value: a String's, a Buffer's, a BufferField's buffer,
// a FieldUnit's region. No public function has a `requires`: every argument is checked, and a refusal changes no byte.
#![tactic(auto)]

pub mod convert; // to integer, bool, buffer, string, a named type
pub mod field; // writing any value to a field unit
pub mod integer; // ToInteger
pub mod status; // the value of _STA
