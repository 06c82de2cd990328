// Runs of any length, moved between byte slices 64 bits a turn.
ghost use Rattle.std.specs.Prelude.{◌≡◌, ◌+◌, ◌-◌, ◌*◌, ◌/◌, min};
ghost use Rattle.bits.specs.Bits.{bit_at, bytes_for, run_bits, with_bits, set_bits};

use crate::run::{Place, byte, get_at, set_at, splice_byte, word};
use crate::unit::{store_bytes, store_n};
use crate::word::low;

// The length bits of s from offset on, to the front of out: as many bytes as they take, the unused top bits zero. All other bytes of out stay.
#[tactic(auto, using(crate::proofs::With::with_bits_zero, crate::proofs::Turns::read_turn, crate::proofs::Turns::few, crate::proofs::Turns::read_rest))]
pub fn read_long(s: &[u8], offset: usize, length: usize, out: &mut [u8])
    ensures { out.new ≡ with_bits out.old 0 (8 * bytes_for length) (run_bits s.now offset length) }
{
    let p = Place::of(offset);
    let full = (length / 8).min(out.len());
    for k in 0..full / 8 {
        store_n::<8>(out, 8 * k, get_at(s, p.on(8 * k), 64));
    }
    let j = 8 * (full / 8);
    let m = length.div_ceil(8).min(out.len()) - j;
    let n = (length - 8 * j).min(64);
    store_bytes(out, j, m, get_at(s, p.on(j), n));
}

// The length bits of s from offset on become the first of buf, zeros past its end. All others stay.
// Each turn stores eight whole bytes: the bits carried from the word before, and above them the next word's.
#[tactic(auto, using(crate::proofs::With::with_bits_zero, crate::proofs::Turns::carry_first, crate::proofs::Turns::write_turn, crate::proofs::Turns::carry_next))]
pub fn write_long(s: &mut [u8], offset: usize, length: usize, buf: &[u8])
    ensures { s.new ≡ with_bits s.old offset length (bit_at buf.now) }
{
    let p = Place::of(offset);
    let full = reach(s.len(), p.at, length);
    let mut carry = low(byte(s, p.at), p.r);
    for k in 0..full / 8 {
        let w = word(buf, 8 * k);
        store_n::<8>(s, p.at + 8 * k, carry | (w << p.r));
        carry = (w >> 1) >> (63 - p.r);
    }
    let j = 8 * (full / 8);
    splice_byte(s, p.at + j, p.r, carry);
    set_at(s, p.on(j), (length - 8 * j).min(64), word(buf, j));
}

// How many whole bytes of a run from byte at on can start inside size bytes.
fn reach(size: usize, at: usize, length: usize) -> usize
    ensures { result ≡ min (length / 8) (size - at) }
{
    (length / 8).min(size.saturating_sub(at))
}

// The same with s itself as it was before: the top is taken first, then from there down, so that what is read is not yet written.
#[tactic(auto, using(crate::proofs::With::with_bits_zero, crate::proofs::Turns::self_turn))]
pub fn write_self(s: &mut [u8], offset: usize, length: usize)
    ensures { s.new ≡ with_bits s.old offset length (bit_at s.old) }
{
    let p = Place::of(offset);
    let full = reach(s.len(), p.at, length);
    let top = word(s, full);
    for k in (0..full / 8).rev() {
        let j = full % 8 + 8 * k;
        let w = word(s, j);
        set_at(s, p.on(j), 64, w);
    }
    let w = word(s, 0);
    set_at(s, p, 8 * (full % 8), w);
    set_at(s, p.on(full), (length - 8 * full).min(64), top);
}

// The length bits of s from offset on become those of value, zeros above its 64.
#[tactic(auto, using(crate::proofs::Turns::eight_bytes))]
pub fn write_number(s: &mut [u8], offset: usize, length: usize, value: u64)
    ensures { s.new ≡ set_bits s.old offset length value }
{
    if length <= 64 {
        crate::run::set_bits(s, offset, length, value);
        return;
    }
    write_long(s, offset, length, &value.to_le_bytes());
}
