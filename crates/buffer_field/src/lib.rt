// Buffer fields: a run of bits of a lent buffer, read as an Integer or a Buffer, written by an Integer, a Boolean or a Buffer.
// No public function has a `requires`: every argument is checked, and a refusal changes no byte.
#![tactic(auto)]

ghost use Rattle.std.specs.Prelude.{◌≡◌, ◌+◌, ◌*◌, ◌≤◌, min, [], ltb};
ghost use lib.ListN;
ghost use Rattle.bits.specs.Bits.{bit_at, bit_of};
ghost use Rattle.types.specs.Refusals.{first_of};
ghost use Rattle.types.specs.declared.value.AmlValue.TheVariants as Val;
ghost use Rattle.buffer_field.specs.BufferFields.{bounds_checks, read, write, write_self};

use types::refusal::Refusal;
use types::value::{AmlValue, type_of};

// What reading a field gives: up to 64 bits an Integer, more a Buffer of so many bytes, which stand at the front of the output.
#[derive(Clone, Copy)]
pub enum FieldValue {
    Integer(u64),
    Buffer(usize),
}

// Does the field reach past a buffer of so many bytes? The sum of offset and length is not bounded, so it is not formed.
fn out_of_bounds(size: usize, offset: u64, length: u64) -> bool
    requires { size ≤ 65536 }
    ensures { result ≡ ltb (8 * size) (offset + length) }
{
    let bits = 8 * size as u64;
    if bits < length {
        return true;
    }
    bits - length < offset
}

// Whether a buffer of size bytes holds the field of length bits at offset.
pub fn check_buffer_field(size: usize, offset: u64, length: u64) -> Result<(), Refusal>
    ensures { result ≡ first_of (bounds_checks size offset length) }
{
    if 65536 < size {
        return Err(Refusal::TooManyBytes);
    }
    if out_of_bounds(size, offset, length) {
        return Err(Refusal::BufferFieldIndexesOutOfBounds);
    }
    Ok(())
}

// The field of length bits at offset of the buffer. More than 64 bits go to the front of out; its other bytes stay.
pub fn read_buffer_field(
    buffer: &[u8],
    offset: u64,
    length: u64,
    out: &mut [u8],
) -> Result<FieldValue, Refusal>
    ensures { (record { answer = result; out = out.new }) ≡ read buffer.now offset length out.old }
{
    check_buffer_field(buffer.len(), offset, length)?;
    if length <= 64 {
        return Ok(FieldValue::Integer(bits::run::get_bits(
            buffer,
            offset as usize,
            length as usize,
        )));
    }
    let n = (length as usize).div_ceil(8);
    if out.len() < n {
        return Err(Refusal::OutputTooShort);
    }
    bits::long::read_long(buffer, offset as usize, length as usize, out);
    Ok(FieldValue::Buffer(n))
}

// The field's first bit and no other; none in a field of length 0.
fn write_boolean(buffer: &mut [u8], offset: u64, length: u64, b: bool) -> Result<(), Refusal>
    ensures { (record { answer = result; buffer = buffer.new }) ≡ write buffer.old offset length (Val.Boolean b) [] }
{
    check_buffer_field(buffer.len(), offset, length)?;
    bits::run::set_bits(
        buffer,
        offset as usize,
        length.min(1) as usize,
        u64::from(b),
    );
    Ok(())
}

// Writes a value over the whole field of length bits at offset of the buffer; a Boolean over its first bit. A Buffer's bytes are lent beside it.
pub fn write_buffer_field(
    buffer: &mut [u8],
    offset: u64,
    length: u64,
    value: AmlValue,
    bytes: &[u8],
) -> Result<(), Refusal>
    ensures { (record { answer = result; buffer = buffer.new }) ≡ write buffer.old offset length value bytes.now }
{
    if 65536 < buffer.len() {
        return Err(Refusal::TooManyBytes);
    }
    if 65536 < bytes.len() {
        return Err(Refusal::TooManyBytes);
    }
    match value {
        AmlValue::Integer(x) => write_buffer_field_integer(buffer, offset, length, x),
        AmlValue::Boolean(b) => write_boolean(buffer, offset, length, b),
        AmlValue::Buffer => write_buffer_field_bytes(buffer, offset, length, bytes),
        _ => Err(Refusal::TypeCannotBeWrittenToBufferField(type_of(value))),
    }
}

// Writes a number over the whole field, zero-extended or truncated: as write_buffer_field writes an Integer.
pub fn write_buffer_field_integer(
    buffer: &mut [u8],
    offset: u64,
    length: u64,
    x: u64,
) -> Result<(), Refusal>
    ensures { (record { answer = result; buffer = buffer.new }) ≡ write buffer.old offset length (Val.Integer x) [] }
{
    check_buffer_field(buffer.len(), offset, length)?;
    bits::long::write_number(buffer, offset as usize, length as usize, x);
    Ok(())
}

// Writes the lent bytes over the whole field: as write_buffer_field writes a Buffer.
pub fn write_buffer_field_bytes(
    buffer: &mut [u8],
    offset: u64,
    length: u64,
    bytes: &[u8],
) -> Result<(), Refusal>
    ensures { (record { answer = result; buffer = buffer.new }) ≡ write buffer.old offset length Val.Buffer bytes.now }
{
    let there = buffer.len();
    let given = bytes.len();
    if 65536 < given {
        return Err(Refusal::TooManyBytes);
    }
    check_buffer_field(there, offset, length)?;
    let at = offset as usize;
    bits::long::write_long(buffer, at, length as usize, bytes);
    Ok(())
}

// Writes the buffer itself, as it was before, over the whole field.
pub fn write_buffer_field_self(buffer: &mut [u8], offset: u64, length: u64) -> Result<(), Refusal>
    ensures { (record { answer = result; buffer = buffer.new }) ≡ write_self buffer.old offset length }
{
    check_buffer_field(buffer.len(), offset, length)?;
    bits::long::write_self(buffer, offset as usize, length as usize);
    Ok(())
}
