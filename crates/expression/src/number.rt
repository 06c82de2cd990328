// Operators on numbers: each operand is converted to integer, left, then right; then the operator's own refusal. Each operator is a function of its
// own, as document 01 and the C interface name them; what they share is both_operands.
ghost use Rattle.std.specs.Prelude.{◌≡◌};
ghost use Rattle.expression.specs.Numbers as N;

use types::refusal::Refusal;
use types::value::AmlValue;
use value::convert::as_integer;

// Both operands as numbers: left, then right; 27 of either before both.
#[tactic(auto, using(crate::proofs::Numbers::two, crate::proofs::Numbers::operands_long))]
pub(crate) fn both_operands(
    left: AmlValue,
    left_bytes: &[u8],
    right: AmlValue,
    right_bytes: &[u8],
) -> Result<(u64, u64), Refusal>
    ensures { result ≡ N.operands left left_bytes.now right right_bytes.now }
{
    if 65536 < right_bytes.len() {
        return Err(Refusal::TooManyBytes);
    }
    // let-else and no `?`: document 01 names the form ("The shape we want in each place").
    let first = as_integer(left, left_bytes);
    let Ok(x) = first else {
        return Err(first.unwrap_err());
    };
    let second = as_integer(right, right_bytes);
    let Ok(y) = second else {
        return Err(second.unwrap_err());
    };
    Ok((x, y))
}

// DefAdd: wraps at 2^64.
#[tactic(auto, unfolding(crate::specs::Numbers::binary))]
pub fn def_add(
    left: AmlValue,
    left_bytes: &[u8],
    right: AmlValue,
    right_bytes: &[u8],
) -> Result<u64, Refusal>
    ensures { result ≡ N.binary N.add left left_bytes.now right right_bytes.now }
{
    let (x, y) = both_operands(left, left_bytes, right, right_bytes)?;
    Ok(x.wrapping_add(y))
}

// DefAnd: bitwise.
#[tactic(auto, using(crate::proofs::Numbers::and_bits), unfolding(crate::specs::Numbers::binary))]
pub fn def_and(
    left: AmlValue,
    left_bytes: &[u8],
    right: AmlValue,
    right_bytes: &[u8],
) -> Result<u64, Refusal>
    ensures { result ≡ N.binary N.and left left_bytes.now right right_bytes.now }
{
    let (x, y) = both_operands(left, left_bytes, right, right_bytes)?;
    Ok(x & y)
}

// DefShiftLeft: what leaves 64 bits is lost; a count of 64 or more is refused.
#[tactic(auto, using(crate::proofs::Numbers::left_few, crate::proofs::Numbers::left_many), unfolding(crate::specs::Numbers::binary))]
pub fn def_shift_left(
    left: AmlValue,
    left_bytes: &[u8],
    right: AmlValue,
    right_bytes: &[u8],
) -> Result<u64, Refusal>
    ensures { result ≡ N.binary N.shift_left left left_bytes.now right right_bytes.now }
{
    let (x, y) = both_operands(left, left_bytes, right, right_bytes)?;
    if y < 64 {
        Ok(x << y)
    } else {
        Err(Refusal::InvalidShiftLeft)
    }
}

// DefShiftRight.
#[tactic(auto, using(crate::proofs::Numbers::right_few, crate::proofs::Numbers::right_many), unfolding(crate::specs::Numbers::binary))]
pub fn def_shift_right(
    left: AmlValue,
    left_bytes: &[u8],
    right: AmlValue,
    right_bytes: &[u8],
) -> Result<u64, Refusal>
    ensures { result ≡ N.binary N.shift_right left left_bytes.now right right_bytes.now }
{
    let (x, y) = both_operands(left, left_bytes, right, right_bytes)?;
    if y < 64 {
        Ok(x >> y)
    } else {
        Err(Refusal::InvalidShiftRight)
    }
}

// DefIncrement: wraps at 2^64. It answers the number; nothing is stored.
#[tactic(auto, using(crate::proofs::Numbers::unary_refused, crate::proofs::Numbers::unary_number))]
pub fn def_increment(value: AmlValue, bytes: &[u8]) -> Result<u64, Refusal>
    ensures { result ≡ N.unary N.increment value bytes.now }
{
    let x = as_integer(value, bytes)?;
    Ok(x.wrapping_add(1))
}

// DefDecrement: likewise.
#[tactic(auto, using(crate::proofs::Numbers::unary_refused, crate::proofs::Numbers::unary_number, crate::proofs::Numbers::one_less))]
pub fn def_decrement(value: AmlValue, bytes: &[u8]) -> Result<u64, Refusal>
    ensures { result ≡ N.unary N.decrement value bytes.now }
{
    let x = as_integer(value, bytes)?;
    Ok(x.wrapping_sub(1))
}
