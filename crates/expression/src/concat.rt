// Concat, which gives a Buffer of two numbers, a Buffer, or a String with the names of the kinds that have no bytes; and ConcatRes.
// All lengths are known before the first byte is written: a refusal changes nothing.
ghost use Rattle.std.specs.Prelude.{◌≡◌, ◌+◌, ◌-◌, ◌%◌, ◌≤◌, ◌||◌, ◌==◌, Ok};
ghost use lib.ListN;
ghost use Rattle.value.specs.Conversions.{held_by, to_buffer, given, into, none, no};
ghost use Rattle.types.specs.declared.value.AmlType.TheVariants as T;
ghost use Rattle.value.specs.Lengths.{length_of};
ghost use Rattle.expression.specs.Concat as C;

use crate::number::both_operands;
use bits::bytes;
use types::refusal::Refusal;
use types::value::{AmlType, AmlValue, type_of};
use value::convert::{as_buffer, buffer_length};

// So many bytes of the output.
#[derive(Clone, Copy)]
pub enum ConcatValue {
    String(usize),
    Buffer(usize),
}

// Both integers, eight bytes each.
#[tactic(auto, using(crate::proofs::Joining::numbers_no_room))]
fn concat_numbers(x: u64, y: u64, out: &mut [u8]) -> Result<ConcatValue, Refusal>
    ensures { C.concatenated result out.new ≡ C.delivered (C.join_operands (Ok (x, y))) out.old }
{
    if out.len() < 16 {
        return Err(Refusal::OutputTooShort);
    }
    bits::unit::store(out, 0, 8, x);
    bits::unit::store(&mut out[8..], 0, 8, y);
    Ok(ConcatValue::Buffer(16))
}

// The left bytes, then the right side as a buffer. The bound on its bytes stays a clause, as in value::convert.
#[tactic(auto, using(crate::proofs::Joining::buffers_short))]
fn concat_buffers(
    left_bytes: &[u8],
    right: AmlValue,
    right_bytes: &[u8],
    out: &mut [u8],
) -> Result<ConcatValue, Refusal>
    requires { lib.ListN.length right_bytes.now ≤ 65536 }
    ensures { C.concatenated result out.new ≡ C.delivered (C.join_buffers left_bytes.now (to_buffer (held_by right right_bytes.now))) out.old }
{
    let n = buffer_length(right, right_bytes)?;
    if out.len() < left_bytes.len() {
        return Err(Refusal::OutputTooShort);
    }
    if out.len() - left_bytes.len() < n {
        return Err(Refusal::OutputTooShort);
    }
    let at = bytes::copy(left_bytes, out);
    // n bytes: it was counted above
    let _ = as_buffer(right, right_bytes, &mut out[at..]);
    Ok(ConcatValue::Buffer(at + n))
}

// What a kind without bytes is called: document 01's table of names, as a match.
fn name_of(kind: AmlType) -> &'static [u8]
    ensures { result.now ≡ C.name_of kind }
{
    match kind {
        AmlType::BufferField => b"[Buffer Field]",
        AmlType::FieldUnit => b"[Field]",
        AmlType::Device => b"[Device]",
        AmlType::Method => b"[Control Method]",
        AmlType::Mutex => b"[Mutex]",
        AmlType::OpRegion => b"[Operation Region]",
        AmlType::Package => b"[Package]",
        AmlType::Processor => b"[Processor]",
        AmlType::PowerResource => b"[Power Resource]",
        AmlType::ThermalZone => b"[Thermal Zone]",
        AmlType::Integer => b"",
        AmlType::String => b"",
        AmlType::Buffer => b"",
    }
}

// How long a value's string or name is; 1 for an Integer and a Buffer, which have neither.
fn text_length(value: AmlValue, bytes: &[u8]) -> Result<usize, Refusal>
    ensures { result ≡ length_of (C.text_of (held_by value bytes.now)) }
{
    match value {
        AmlValue::String => Ok(bytes.len()),
        AmlValue::Boolean(_) | AmlValue::Integer(_) => no_text(AmlType::Integer),
        AmlValue::Buffer => no_text(AmlType::Buffer),
        _ => Ok(name_of(type_of(value)).len()),
    }
}

fn no_text(current: AmlType) -> Result<usize, Refusal>
    ensures { result ≡ length_of (none (no current T.String)) }
{
    Err(Refusal::IncompatibleValueConversion {
        current,
        target: AmlType::String,
    })
}

// The string or the name at the front of the output.
fn put_text(value: AmlValue, bytes: &[u8], out: &mut [u8]) -> usize
    requires { lib.ListN.length (C.text_bytes (C.text_of (held_by value bytes.now))) ≤ lib.ListN.length out.old }
    ensures { out.new ≡ into (C.text_bytes (C.text_of (held_by value bytes.now))) out.old }
{
    match value {
        AmlValue::String => bytes::copy(bytes, out),
        _ => bytes::copy(name_of(type_of(value)), out),
    }
}

// The strings or names of both sides.
fn concat_texts(
    left: AmlValue,
    left_bytes: &[u8],
    right: AmlValue,
    right_bytes: &[u8],
    out: &mut [u8],
) -> Result<ConcatValue, Refusal>
    ensures { C.concatenated result out.new ≡ C.delivered (C.join_both (C.text_of (held_by left left_bytes.now)) (C.text_of (held_by right right_bytes.now))) out.old }
{
    let n = text_length(left, left_bytes)?;
    let m = text_length(right, right_bytes)?;
    if out.len() < n {
        return Err(Refusal::OutputTooShort);
    }
    if out.len() - n < m {
        return Err(Refusal::OutputTooShort);
    }
    put_text(left, left_bytes, out);
    put_text(right, right_bytes, &mut out[n..]);
    Ok(ConcatValue::String(n + m))
}

// DefConcat, at the front of the output.
#[tactic(auto, using(crate::proofs::Joining::concat_left_long, crate::proofs::Joining::concat_right_long))]
pub fn def_concat(
    left: AmlValue,
    left_bytes: &[u8],
    right: AmlValue,
    right_bytes: &[u8],
    out: &mut [u8],
) -> Result<ConcatValue, Refusal>
    ensures { C.concatenated result out.new ≡ C.concat left left_bytes.now right right_bytes.now out.old }
{
    if 65536 < left_bytes.len() {
        return Err(Refusal::TooManyBytes);
    }
    if 65536 < right_bytes.len() {
        return Err(Refusal::TooManyBytes);
    }
    match left {
        AmlValue::Boolean(_) | AmlValue::Integer(_) => {
            let (x, y) = both_operands(left, left_bytes, right, right_bytes)?;
            concat_numbers(x, y, out)
        }
        AmlValue::Buffer => concat_buffers(left_bytes, right, right_bytes, out),
        _ => concat_texts(left, left_bytes, right, right_bytes, out),
    }
}

// The sum of the bytes, wrapping at eight bits.
fn sum(bytes: &[u8]) -> u8
    ensures { result ≡ C.sum bytes.now % 256 }
{
    let mut total: u8 = 0;
    for x in bytes {
        total = total.wrapping_add(*x);
    }
    total
}

// Behind the first n bytes of the output: 0x79, and the byte that makes the sum of all 0 modulo 256.
fn end_tag(out: &mut [u8], n: usize)
    requires { n + 2 ≤ lib.ListN.length out.old }
    ensures { out.new ≡ into (C.ended (lib.ListN.take n out.old)) out.old }
{
    let total = sum(&out[..n]).wrapping_add(0x79);
    out[n] = 0x79;
    out[n + 1] = total.wrapping_neg();
}

// Is one of two operands of ConcatRes a single byte?
#[tactic(auto, using(std::proofs::lemmas::Bool::Decides::nat_tests))]
fn too_short(n: usize, m: usize) -> bool
    ensures { result ≡ (n == 1 || m == 1) }
{
    n == 1 || m == 1
}

// An operand of ConcatRes without its last two bytes.
fn body_length(n: usize) -> usize
    ensures { result ≡ n - 2 }
{
    n.saturating_sub(2)
}

// DefConcatRes, at the front of the output. Both operands are copied whole: the second over the last two bytes of the first, the end over its own.
pub fn def_concat_res(
    left: AmlValue,
    left_bytes: &[u8],
    right: AmlValue,
    right_bytes: &[u8],
    out: &mut [u8],
) -> Result<usize, Refusal>
    ensures { given result out.new ≡ C.concat_res left left_bytes.now right right_bytes.now out.old }
{
    if 65536 < left_bytes.len() {
        return Err(Refusal::TooManyBytes);
    }
    if 65536 < right_bytes.len() {
        return Err(Refusal::TooManyBytes);
    }
    let n = buffer_length(left, left_bytes)?;
    let m = buffer_length(right, right_bytes)?;
    if too_short(n, m) {
        return Err(Refusal::ResourceDescriptorTooShort);
    }
    let at = body_length(n);
    let end = at + body_length(m);
    let size = end + 2;
    if out.len() < size {
        return Err(Refusal::OutputTooShort);
    }
    // n and m bytes: they were counted above
    let _ = as_buffer(left, left_bytes, out);
    let _ = as_buffer(right, right_bytes, &mut out[at..]);
    end_tag(out, end);
    Ok(size)
}
