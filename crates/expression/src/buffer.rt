// Building a buffer: the initial bytes, then zeros, as many bytes as the size says.
ghost use Rattle.std.specs.Prelude.{◌≡◌};
ghost use Rattle.value.specs.Conversions.{given};
ghost use Rattle.expression.specs.Build.{build_buffer};

use bits::bytes;
use types::refusal::Refusal;
use types::value::AmlValue;
use value::convert::as_integer;

// DefBuffer, at the front of the output: the size's refusals, 11, then 20; 27 of either slice before.
#[tactic(auto, using(crate::proofs::Building::build_long, crate::proofs::Building::build_below))]
pub fn def_buffer(
    size: AmlValue,
    size_bytes: &[u8],
    initial: &[u8],
    out: &mut [u8],
) -> Result<usize, Refusal>
    ensures { given result out.new ≡ build_buffer size size_bytes.now initial.now out.old }
{
    if 65536 < initial.len() {
        return Err(Refusal::TooManyBytes);
    }
    let n = as_integer(size, size_bytes)?;
    let end = n as usize;
    if end < initial.len() {
        return Err(Refusal::MalformedBuffer);
    }
    if out.len() < end {
        return Err(Refusal::OutputTooShort);
    }
    let at = bytes::copy(initial, out);
    out[at..end].fill(0);
    Ok(end)
}
