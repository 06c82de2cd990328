// Comparing two values: the right side is converted to the left's type.
ghost use Rattle.std.specs.Prelude.{◌≡◌, ◌+◌, ◌-◌, ◌*◌, ◌<◌, ◌≤◌, min, Ok};
ghost use lib.ListN;
ghost use Rattle.bits.specs.Bits.{get_bits, run_bits, bytes, bytes_for};
ghost use Rattle.value.specs.Conversions.{held_by, to_buffer, to_string};
ghost use Rattle.expression.specs.Compare as C;

use crate::number::both_operands;
use std::cmp::Ordering;
use types::refusal::Refusal;
use types::value::{AmlValue, type_of};
use value::convert::{buffer_length, string_length};

// How many first bytes are the same on both sides, eight at a time: those behind them decide.
// A while: as a `for` over the words, proved, 2,000 bytes took 6,169 instructions, not 2,638, since each load then tests its place again.
fn same_words(s: &[u8], t: &[u8]) -> usize
    ensures { (result ≤ lib.ListN.length s.now) × (result ≤ lib.ListN.length t.now) × (C.compare_bytes (lib.ListN.drop result s.now) (lib.ListN.drop result t.now) ≡ C.compare_bytes s.now t.now) }
{
    let mut i: usize = 0;
    while 8 <= s.len() - i {
        if t.len() - i < 8 {
            return i;
        }
        let x = bits::unit::load(s, i, 8);
        let y = bits::unit::load(t, i, 8);
        if x != y {
            return i;
        }
        i += 8;
    }
    i
}

// The first byte that differs decides; a prefix comes first.
fn compare_bytes(s: &[u8], t: &[u8]) -> Ordering
    ensures { Ok result ≡ C.compare_bytes s.now t.now }
{
    let n = same_words(s, t);
    // Not `cmp` of what is left: it tests 64 bytes together first, and the next eight decide.
    for i in n..s.len().min(t.len()) {
        let order = s[i].cmp(&t[i]);
        if order.is_ne() {
            return order;
        }
    }
    s.len().cmp(&t.len())
}

// Byte i of the field of length bits at offset of t; its unused top bits are zero.
fn field_byte(t: &[u8], offset: usize, length: usize, i: usize) -> u64
    requires { (offset + length ≤ 524288) × (8 * i < length) }
    ensures { result ≡ get_bits t.now (offset + 8 * i) (min 8 (length - 8 * i)) }
{
    let left = length - 8 * i;
    if left < 8 {
        return bits::run::get_bits(t, offset + 8 * i, left);
    }
    bits::run::get_bits(t, offset + 8 * i, 8)
}

// The same where the right side is the field of length bits at offset of t, of n bytes.
fn compare_field(s: &[u8], t: &[u8], offset: usize, length: usize, n: usize) -> Ordering
    requires { (offset + length ≤ 8 * lib.ListN.length t.now) × (lib.ListN.length t.now ≤ 65536) × (n ≡ bytes_for length) }
    ensures { Ok result ≡ C.compare_bytes s.now (bytes (run_bits t.now offset length) 0 (bytes_for length)) }
{
    for (i, &x) in s.iter().enumerate() {
        if n <= i {
            return Ordering::Greater;
        }
        let y = field_byte(t, offset, length, i);
        let order = u64::from(x).cmp(&y);
        if order.is_ne() {
            return order;
        }
    }
    s.len().cmp(&n)
}

// The bound on bytes stays a clause, as in value::convert: three functions ask it, and the public ones take value and bytes apart.
// The right side as a string.
fn compare_string(s: &[u8], right: AmlValue, right_bytes: &[u8]) -> Result<Ordering, Refusal>
    requires { lib.ListN.length right_bytes.now ≤ 65536 }
    ensures { result ≡ C.texts s.now (to_string (held_by right right_bytes.now)) }
{
    string_length(right, right_bytes)?;
    Ok(compare_bytes(s, right_bytes))
}

// The right side as a buffer; the bytes of a BufferField are taken from its buffer one by one.
fn compare_buffer(s: &[u8], right: AmlValue, right_bytes: &[u8]) -> Result<Ordering, Refusal>
    requires { lib.ListN.length right_bytes.now ≤ 65536 }
    ensures { result ≡ C.texts s.now (to_buffer (held_by right right_bytes.now)) }
{
    let n = buffer_length(right, right_bytes)?;
    Ok(match right {
        AmlValue::BufferField { offset, length } => compare_field(
            s,
            right_bytes,
            offset as usize,
            length as usize,
            n,
        ),
        _ => compare_bytes(s, right_bytes),
    })
}

// 27, 4, what reading a FieldUnit on the left refuses, what converting the right side refuses.
pub fn compare(
    left: AmlValue,
    left_bytes: &[u8],
    right: AmlValue,
    right_bytes: &[u8],
) -> Result<Ordering, Refusal>
    ensures { result ≡ C.compare left left_bytes.now right right_bytes.now }
{
    if 65536 < left_bytes.len() {
        return Err(Refusal::TooManyBytes);
    }
    if 65536 < right_bytes.len() {
        return Err(Refusal::TooManyBytes);
    }
    match left {
        AmlValue::Boolean(_) | AmlValue::Integer(_) | AmlValue::Field(_) => {
            let (x, y) = both_operands(left, left_bytes, right, right_bytes)?;
            Ok(x.cmp(&y))
        }
        AmlValue::String => compare_string(left_bytes, right, right_bytes),
        AmlValue::Buffer => compare_buffer(left_bytes, right, right_bytes),
        _ => Err(Refusal::TypeCannotBeCompared(type_of(left))),
    }
}
