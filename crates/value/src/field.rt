// Writing any value to a field unit: the field's checks, then the conversion, then the write.
ghost use Rattle.std.specs.Prelude.{◌≡◌};
ghost use Rattle.field_unit.specs.Calls.{wrote};
ghost use Rattle.value.specs.FieldWrites.{write_value};

use crate::convert::as_integer;
use field_unit::check::check_field;
use field_unit::whole::write_field;
use types::refusal::Refusal;
use types::value::{AmlValue, FieldUnit};

// The value's bytes are lent beside it.
pub fn write_value(
    region: &mut [u8],
    field: FieldUnit,
    value: AmlValue,
    bytes: &[u8],
) -> Result<u64, Refusal>
    ensures { wrote result region.new ≡ write_value region.old field value bytes.now }
{
    if 65536 < bytes.len() {
        return Err(Refusal::TooManyBytes);
    }
    check_field(field, true, region.len() as u64)?;
    let n = as_integer(value, bytes)?;
    write_field(region, field, n)
}

// The same of a value whose bytes are the region itself, as a field of it: it is read before anything is stored. C calls both, and no borrow
// lends a region twice, so neither is the other.
pub fn write_value_self(
    region: &mut [u8],
    field: FieldUnit,
    value: AmlValue,
) -> Result<u64, Refusal>
    ensures { wrote result region.new ≡ write_value region.old field value region.old }
{
    check_field(field, true, region.len() as u64)?;
    let n = as_integer(value, region)?;
    write_field(region, field, n)
}
