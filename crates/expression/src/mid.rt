// Mid: where the part stands in its source, or the refusal; then each of the two alone, the part being empty where Mid is refused.
ghost use Rattle.std.specs.Prelude.{◌≡◌, ◌-◌, min, Ok};
ghost use Rattle.expression.specs.Mid as M;

use crate::number::both_operands;
use types::refusal::Refusal;
use types::value::{AmlValue, type_of};

// Where the part begins in the source, at its index or at the end, and how many bytes it has.
#[derive(Clone, Copy)]
pub struct Part {
    pub at: u64,
    pub count: u64,
}

// The part from index, of so many bytes where there are as many.
fn cut(size: u64, index: u64, count: u64) -> Part
    ensures { result ≡ (record { at = min index size; count = min count (size - min index size) }) }
{
    let at = index.min(size);
    Part {
        at,
        count: count.min(size - at),
    }
}

// "index, length, 5"; 27 of any of the three first.
#[tactic(auto, using(crate::proofs::Slicing::place_long, crate::proofs::Slicing::place_sliced_by))]
pub fn def_mid_place(
    source: AmlValue,
    source_bytes: &[u8],
    index: AmlValue,
    index_bytes: &[u8],
    length: AmlValue,
    length_bytes: &[u8],
) -> Result<Part, Refusal>
    ensures { result ≡ M.mid_place source source_bytes.now index index_bytes.now length length_bytes.now }
{
    if 65536 < source_bytes.len() {
        return Err(Refusal::TooManyBytes);
    }
    let (at, count) = both_operands(index, index_bytes, length, length_bytes)?;
    match source {
        AmlValue::String | AmlValue::Buffer => Ok(cut(source_bytes.len() as u64, at, count)),
        _ => Err(Refusal::TypeCannotBeSliced(type_of(source))),
    }
}

// The refusal alone.
#[tactic(auto, using(crate::proofs::Slicing::placed_done, crate::proofs::Slicing::outcome_refused))]
pub fn def_mid(
    source: AmlValue,
    source_bytes: &[u8],
    index: AmlValue,
    index_bytes: &[u8],
    length: AmlValue,
    length_bytes: &[u8],
) -> Result<(), Refusal>
    ensures { result ≡ M.mid_outcome (M.mid source source_bytes.now index index_bytes.now length length_bytes.now) }
{
    def_mid_place(
        source,
        source_bytes,
        index,
        index_bytes,
        length,
        length_bytes,
    )?;
    Ok(())
}

// The part itself, of the source's own bytes.
pub fn def_mid_part<'a>(
    source: AmlValue,
    source_bytes: &'a [u8],
    index: AmlValue,
    index_bytes: &[u8],
    length: AmlValue,
    length_bytes: &[u8],
) -> &'a [u8]
    ensures { result.now ≡ M.mid_part (M.mid source source_bytes.now index index_bytes.now length length_bytes.now) }
{
    let found = def_mid_place(
        source,
        source_bytes,
        index,
        index_bytes,
        length,
        length_bytes,
    );
    let Ok(part) = found else {
        return &source_bytes[..0];
    };
    let end = part.at + part.count;
    &source_bytes[part.at as usize..end as usize]
}
