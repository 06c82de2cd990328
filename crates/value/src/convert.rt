// Conversions. A field is read first where document 01 says so, and its own refusals come before 1.
ghost use Rattle.std.specs.Prelude.{◌≡◌, ◌≤◌, false};
ghost use lib.ListN;
ghost use Rattle.types.specs.Values.{type_of};
ghost use Rattle.types.specs.declared.value.AmlType.TheVariants as T;
ghost use Rattle.value.specs.Conversions.{no as noConversion, truth_number, buffer_field_content, field_unit_content, content_integer, content_buffer, unit_refusal, these, given, giving, given_type, as_integer, as_bool, as_buffer, as_string, same_type, as_type};
ghost use Rattle.value.specs.Lengths.{length_of, buffer_length, string_length};

use bits::bytes;
use buffer_field::check_buffer_field;
use field_unit::whole::read_field;
use types::refusal::Refusal;
use types::value::{AmlType, AmlValue, FieldUnit, type_of};

// What a value becomes of the type wanted. Same: it has the type already. Buffer: so many bytes of the output.
#[derive(Clone, Copy)]
pub enum Converted {
    Same,
    Integer(u64),
    Buffer(usize),
}

fn no(current: AmlType, target: AmlType) -> Refusal
    ensures { result ≡ noConversion current target }
{
    Refusal::IncompatibleValueConversion { current, target }
}

// The bound on bytes stays a clause: the public functions, as C and document 01 have them, take a value and its bytes apart, and a struct
// of both would be made in each of them for the four functions here that ask it.
// The number in a BufferField; of one over 64 bits its first 64.
fn buffer_field_integer(bytes: &[u8], offset: u64, length: u64) -> Result<u64, Refusal>
    requires { lib.ListN.length bytes.now ≤ 65536 }
    ensures { result ≡ content_integer (buffer_field_content offset length bytes.now) }
{
    check_buffer_field(bytes.len(), offset, length)?;
    Ok(bits::run::get_bits(bytes, offset as usize, length as usize))
}

fn field_integer(bytes: &[u8], field: FieldUnit) -> Result<u64, Refusal>
    ensures { result ≡ content_integer (field_unit_content field bytes.now) }
{
    let read = read_field(bytes, field)?;
    Ok(read.value)
}

// To integer.
pub fn as_integer(value: AmlValue, bytes: &[u8]) -> Result<u64, Refusal>
    ensures { result ≡ as_integer value bytes.now }
{
    if 65536 < bytes.len() {
        return Err(Refusal::TooManyBytes);
    }
    if let AmlValue::Integer(n) = value {
        return Ok(n);
    }
    if let AmlValue::Boolean(b) = value {
        return Ok(truth_number(b));
    }
    content_integer(value, bytes)
}

// Of a value that is no number itself: by its bytes, or refused.
fn content_integer(value: AmlValue, bytes: &[u8]) -> Result<u64, Refusal>
    requires { (lib.ListN.length bytes.now ≤ 65536) × (same_type (type_of value) T.Integer ≡ false) }
    ensures { result ≡ as_integer value bytes.now }
{
    match value {
        AmlValue::Buffer => Ok(bits::run::get_bits(bytes, 0, 64)),
        AmlValue::BufferField { offset, length } => buffer_field_integer(bytes, offset, length),
        AmlValue::Field(field) => field_integer(bytes, field),
        _ => Err(no(type_of(value), AmlType::Integer)),
    }
}

fn truth_number(b: bool) -> u64
    ensures { result ≡ truth_number b }
{
    if b { 0xffff_ffff_ffff_ffff } else { 0 }
}

// To bool: nothing is read.
pub fn as_bool(value: AmlValue, bytes: &[u8]) -> Result<bool, Refusal>
    ensures { result ≡ as_bool value bytes.now }
{
    if 65536 < bytes.len() {
        return Err(Refusal::TooManyBytes);
    }
    match value {
        AmlValue::Boolean(b) => Ok(b),
        AmlValue::Integer(n) => Ok(n != 0),
        other => Err(no(type_of(other), AmlType::Integer)),
    }
}

// The lent bytes at the front of the output.
fn give(bytes: &[u8], out: &mut [u8]) -> Result<usize, Refusal>
    ensures { given result out.new ≡ giving (these bytes.now) out.old }
{
    if out.len() < bytes.len() {
        return Err(Refusal::OutputTooShort);
    }
    Ok(bytes::copy(bytes, out))
}

// How many bytes a BufferField has as a Buffer.
fn buffer_field_length(bytes: &[u8], offset: u64, length: u64) -> Result<usize, Refusal>
    requires { lib.ListN.length bytes.now ≤ 65536 }
    ensures { result ≡ length_of (content_buffer (buffer_field_content offset length bytes.now)) }
{
    check_buffer_field(bytes.len(), offset, length)?;
    if length <= 64 {
        return Err(no(AmlType::Integer, AmlType::Buffer));
    }
    Ok((length as usize).div_ceil(8))
}

// A BufferField over 64 bits is a Buffer; a shorter one is an Integer, which is none.
fn buffer_field_buffer(
    bytes: &[u8],
    offset: u64,
    length: u64,
    out: &mut [u8],
) -> Result<usize, Refusal>
    requires { lib.ListN.length bytes.now ≤ 65536 }
    ensures { given result out.new ≡ giving (content_buffer (buffer_field_content offset length bytes.now)) out.old }
{
    let n = buffer_field_length(bytes, offset, length)?;
    if out.len() < n {
        return Err(Refusal::OutputTooShort);
    }
    bits::long::read_long(bytes, offset as usize, length as usize, out);
    Ok(n)
}

// A FieldUnit is read, with its own refusals; what it gives is an Integer, which is not of the type wanted.
fn field_refused(bytes: &[u8], field: FieldUnit, target: AmlType) -> Refusal
    ensures { result ≡ unit_refusal (field_unit_content field bytes.now) target }
{
    match read_field(bytes, field) {
        Ok(_) => no(AmlType::Integer, target),
        Err(r) => r,
    }
}

// To buffer, at the front of the output. To string stands apart, as document 01 and the C interface name both.
pub fn as_buffer(value: AmlValue, bytes: &[u8], out: &mut [u8]) -> Result<usize, Refusal>
    ensures { given result out.new ≡ as_buffer value bytes.now out.old }
{
    if 65536 < bytes.len() {
        return Err(Refusal::TooManyBytes);
    }
    match value {
        AmlValue::Buffer => give(bytes, out),
        AmlValue::BufferField { offset, length } => buffer_field_buffer(bytes, offset, length, out),
        AmlValue::Field(field) => Err(field_refused(bytes, field, AmlType::Buffer)),
        _ => Err(no(type_of(value), AmlType::Buffer)),
    }
}

// To string, at the front of the output.
pub fn as_string(value: AmlValue, bytes: &[u8], out: &mut [u8]) -> Result<usize, Refusal>
    ensures { given result out.new ≡ as_string value bytes.now out.old }
{
    if 65536 < bytes.len() {
        return Err(Refusal::TooManyBytes);
    }
    match value {
        AmlValue::String => give(bytes, out),
        AmlValue::Field(field) => Err(field_refused(bytes, field, AmlType::String)),
        _ => Err(no(type_of(value), AmlType::String)),
    }
}

// How many bytes to buffer gives; nothing is written. string_length is another match, over other kinds.
pub fn buffer_length(value: AmlValue, bytes: &[u8]) -> Result<usize, Refusal>
    ensures { result ≡ buffer_length value bytes.now }
{
    if 65536 < bytes.len() {
        return Err(Refusal::TooManyBytes);
    }
    match value {
        AmlValue::Buffer => Ok(bytes.len()),
        AmlValue::BufferField { offset, length } => buffer_field_length(bytes, offset, length),
        AmlValue::Field(field) => Err(field_refused(bytes, field, AmlType::Buffer)),
        _ => Err(no(type_of(value), AmlType::Buffer)),
    }
}

// How many bytes to string gives; nothing is written.
pub fn string_length(value: AmlValue, bytes: &[u8]) -> Result<usize, Refusal>
    ensures { result ≡ string_length value bytes.now }
{
    if 65536 < bytes.len() {
        return Err(Refusal::TooManyBytes);
    }
    match value {
        AmlValue::String => Ok(bytes.len()),
        AmlValue::Field(field) => Err(field_refused(bytes, field, AmlType::String)),
        _ => Err(no(type_of(value), AmlType::String)),
    }
}

// To a named type.
pub fn as_type(
    value: AmlValue,
    bytes: &[u8],
    wanted: AmlType,
    out: &mut [u8],
) -> Result<Converted, Refusal>
    ensures { given_type result out.new ≡ as_type value bytes.now wanted out.old }
{
    if 65536 < bytes.len() {
        return Err(Refusal::TooManyBytes);
    }
    if type_of(value) == wanted {
        return Ok(Converted::Same);
    }
    match wanted {
        AmlType::Integer => Ok(Converted::Integer(content_integer(value, bytes)?)),
        AmlType::Buffer => Ok(Converted::Buffer(as_buffer(value, bytes, out)?)),
        _ => Err(no(type_of(value), wanted)),
    }
}
