// The text of an operand, by its first character. The bytes of a Buffer or a String are written to the front of scratch.
ghost use Rattle.std.specs.Prelude.{◌≡◌, ◌≤◌, Some};
ghost use Rattle.text.specs.Texts.{number_of};
ghost use Rattle.text.specs.Pairs.{pairs_of, within};
ghost use Rattle.script.specs.Operands as O;
ghost use Rattle.script.specs.Steps as S;

use types::value::AmlValue;

// A value, and how many bytes it has; or `-`. A case with a name and no Option: operand_of answers None where it is neither.
#[derive(Clone, Copy)]
pub enum Operand {
    Value(AmlValue, usize),
    Unused,
}

// A character that stands alone, with nothing behind it.
fn alone(rest: &[u8], operand: Operand) -> Option<Operand>
    ensures { result ≡ S.alone_as rest.now (Some operand) }
{
    if !rest.is_empty() {
        return None;
    }
    Some(operand)
}

fn number_operand(s: &[u8]) -> Option<Operand>
    ensures { result ≡ S.number_as (number_of 10 s.now) }
{
    let n = text::decimal(s)?;
    Some(Operand::Value(AmlValue::Integer(n), 0))
}

fn bytes_operand(value: AmlValue, s: &[u8], scratch: &mut [u8; 256]) -> Option<Operand>
    ensures { (S.read_as result scratch.new ≡ O.bytes_operand value (within 256 (pairs_of s.now))) × (S.count_of result ≤ 256) }
{
    let count = text::lines::pairs(s, scratch)?;
    Some(Operand::Value(value, count))
}

// None: neither a value nor `-`.
pub(crate) fn operand_of(s: &[u8], scratch: &mut [u8; 256]) -> Option<Operand>
    ensures { (S.read_as result scratch.new ≡ O.operand_of s.now) × (S.count_of result ≤ 256) }
{
    let (&first, rest) = s.split_first()?;
    match first {
        b'-' => alone(rest, Operand::Unused),
        b't' => alone(rest, Operand::Value(AmlValue::Boolean(true), 0)),
        b'f' => alone(rest, Operand::Value(AmlValue::Boolean(false), 0)),
        b'x' => bytes_operand(AmlValue::Buffer, rest, scratch),
        b's' => bytes_operand(AmlValue::String, rest, scratch),
        _ => number_operand(s),
    }
}
