// Field units of a lent region, and single units of it.
#![tactic(auto, using(crate::proofs::Known::no_value, crate::proofs::Known::is_value, crate::proofs::Counts::read_most, crate::proofs::Counts::write_most, crate::proofs::Counts::value_most))]

ghost use Rattle.std.specs.Prelude.{◌≡◌, ◌*◌, min};
ghost use Rattle.bits.specs.Bits.{get_bits, set_bits};
ghost use Rattle.field_unit.specs.Calls.{read_field, write_field};
ghost use Rattle.link.specs.Answers.{unit_read_answer, unit_written_answer, no_such_kind};
ghost use Rattle.link.specs.Fields.{field_of};
ghost use Rattle.link.specs.Values.{with_value};
ghost use Rattle.value.specs.FieldWrites.{write_value};

use crate::answer::{Answer, no_such_kind, unit_read_answer, unit_written_answer};
use crate::given::{HostValue, field_of};
use field_unit::whole::{read_field, write_field};
use value::field::{write_value, write_value_self};

// Reads a field unit.
#[unsafe(no_mangle)]
pub extern "C" fn aml_read_field(
    region: &[u8],
    space: u8,
    flags: u8,
    offset: u64,
    length: u64,
) -> Answer
    ensures { result ≡ unit_read_answer (read_field region.now (field_of space flags offset length)) }
{
    unit_read_answer(read_field(region, field_of(space, flags, offset, length)))
}

// Writes the value's lowest bits into a field unit.
#[unsafe(no_mangle)]
pub extern "C" fn aml_write_field(
    region: &mut [u8],
    space: u8,
    flags: u8,
    offset: u64,
    length: u64,
    value: u64,
) -> Answer
    ensures { (result ≡ unit_written_answer (write_field region.old (field_of space flags offset length) value).answer) × (region.new ≡ (write_field region.old (field_of space flags offset length) value).region) }
{
    unit_written_answer(write_field(region, field_of(space, flags, offset, length), value))
}

// Writes any value that converts to integer into a field unit; its bytes are lent beside it.
#[unsafe(no_mangle)]
pub extern "C" fn aml_write_value(
    region: &mut [u8],
    space: u8,
    flags: u8,
    offset: u64,
    length: u64,
    given: HostValue,
    bytes: &[u8],
) -> Answer
    ensures { (result ≡ with_value given (λ v. unit_written_answer (write_value region.old (field_of space flags offset length) v bytes.now).answer) no_such_kind) × (region.new ≡ with_value given (λ v. (write_value region.old (field_of space flags offset length) v bytes.now).region) region.old) }
{
    let Some(v) = given.value() else {
        return no_such_kind();
    };
    unit_written_answer(write_value(region, field_of(space, flags, offset, length), v, bytes))
}

// The same of a value whose bytes are the region itself.
#[unsafe(no_mangle)]
pub extern "C" fn aml_write_value_self(
    region: &mut [u8],
    space: u8,
    flags: u8,
    offset: u64,
    length: u64,
    given: HostValue,
) -> Answer
    ensures { (result ≡ with_value given (λ v. unit_written_answer (write_value region.old (field_of space flags offset length) v region.old).answer) no_such_kind) × (region.new ≡ with_value given (λ v. (write_value region.old (field_of space flags offset length) v region.old).region) region.old) }
{
    let Some(v) = given.value() else {
        return no_such_kind();
    };
    unit_written_answer(write_value_self(region, field_of(space, flags, offset, length), v))
}

// Loads bytes of the region as one number, lowest first: 1, 2, 4 or 8 of them by one access of the machine; more than 8 count as 8, those past the end as 0.
#[unsafe(no_mangle)]
pub extern "C" fn aml_load(region: &[u8], at: usize, bytes: usize) -> u64
    ensures { result ≡ get_bits region.now (8 * at) (8 * min bytes 8) }
{
    bits::unit::load(region, at, bytes)
}

// Stores them.
#[unsafe(no_mangle)]
pub extern "C" fn aml_store(region: &mut [u8], at: usize, bytes: usize, value: u64)
    ensures { region.new ≡ set_bits region.old (8 * at) (8 * min bytes 8) value }
{
    bits::unit::store(region, at, bytes, value)
}
