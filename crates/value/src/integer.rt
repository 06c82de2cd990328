// ToInteger.
ghost use Rattle.std.specs.Prelude.{◌≡◌};
ghost use Rattle.value.specs.Integers.{text_number, text_answer, def_to_integer};

use types::refusal::Refusal;
use types::value::{AmlType, AmlValue, type_of};

// Decimal digits, or 0x and hex digits.
fn text_number(s: &[u8]) -> Option<u64>
    ensures { result ≡ text_number s.now }
{
    match s {
        [b'0', b'x', digits @ ..] => text::hexadecimal(digits),
        _ => text::decimal(s),
    }
}

fn text_integer(s: &[u8]) -> Result<u64, Refusal>
    ensures { result ≡ text_answer (text_number s.now) }
{
    text_number(s).ok_or(Refusal::IncompatibleValueConversion {
        current: AmlType::String,
        target: AmlType::Integer,
    })
}

// Integer, Buffer and String alone; fields are not read.
pub fn to_integer(value: AmlValue, bytes: &[u8]) -> Result<u64, Refusal>
    ensures { result ≡ def_to_integer value bytes.now }
{
    if 65536 < bytes.len() {
        return Err(Refusal::TooManyBytes);
    }
    match value {
        AmlValue::Integer(n) => Ok(n),
        AmlValue::Buffer => Ok(bits::run::get_bits(bytes, 0, 64)),
        AmlValue::String => text_integer(bytes),
        _ => Err(Refusal::IncompatibleValueConversion {
            current: type_of(value),
            target: AmlType::Integer,
        }),
    }
}
