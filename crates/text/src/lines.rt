// What a line-oriented program reads: lines, the names they begin with, hex pairs.
ghost use Rattle.std.specs.Prelude.{◌≡◌, ◌+◌, ◌*◌, ◌<◌};
ghost use Rattle.text.specs.Lines.{line_of, length_of, begins};
ghost use Rattle.text.specs.Pairs.{pairs_of, are_pairs, filled, pairs_into};
ghost use Rattle.text.specs.Texts.{digit_of};

use crate::checked_digit;

// How long is the first line, without its line feed? None where no line feed ends it.
pub fn line_length(s: &[u8]) -> Option<usize>
    ensures { result ≡ length_of (line_of s.now) }
{
    s.iter().position(|c| *c == b'\n')
}

#[tactic(auto, using(crate::proofs::FirstLines::begins_starts))]
pub fn begins_with(line: &[u8], name: &[u8]) -> bool
    ensures { result ≡ begins name.now line.now }
{
    line.starts_with(name)
}

// The byte that two digits say, the higher first. There is no other character: a way out by `?` was tried, and is four times as slow.
fn pair_byte(high: u8, low: u8) -> u8
    requires { (digit_of high < 16) × (digit_of low < 16) }
    ensures { result ≡ digit_of high * 16 + digit_of low }
{
    checked_digit(high).unwrap_or(0) * 16 + checked_digit(low).unwrap_or(0)
}

fn are_pairs(s: &[u8]) -> bool
    ensures { result ≡ are_pairs (pairs_of s.now) }
{
    s.len() % 2 == 0 && s.iter().all(|c| checked_digit(*c).is_some())
}

// The bytes that hex pairs say, to the front of the output; how many they are. None where they are no hex pairs, or more than the output holds: it is then as it was.
pub fn pairs(s: &[u8], out: &mut [u8]) -> Option<usize>
    ensures { filled result out.new ≡ pairs_into (pairs_of s.now) out.old }
{
    if !are_pairs(s) {
        return None;
    }
    let (pairs, _) = s.as_chunks::<2>();
    if out.len() < pairs.len() {
        return None;
    }
    // By place: after an `iter_mut` in a `zip`, a proof knows nothing of the bytes.
    for (i, pair) in pairs.iter().enumerate() {
        out[i] = pair_byte(pair[0], pair[1]);
    }
    Some(pairs.len())
}
