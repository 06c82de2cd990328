// Runs of up to 64 bits as numbers: read by one word and a ninth byte, written by merging into one word and a ninth byte.
ghost use Rattle.std.specs.Prelude.{◌≡◌, ◌+◌, ◌-◌, ◌*◌, ◌/◌, ◌%◌, ◌≤◌, ◌<◌, ◌^◌, min, length, get_or};
ghost use Rattle.bits.specs.Bits as Bits;

use crate::unit::{load_bytes, load_n, store_bytes, store_n};
use crate::word::{low, merge_at, merge_low};

// Where a run begins: its byte, and the bit in it.
#[derive(Clone, Copy)]
pub(crate) struct Place {
    pub(crate) at: usize,
    pub(crate) r: usize,
    ghost low: { at ≤ 2 ^ 62 },
    ghost in_byte: { r < 8 },
}

impl Place {
    pub(crate) fn of(offset: usize) -> Place
        ensures at { result.at ≡ offset / 8 }
        ensures r { result.r ≡ offset % 8 }
    {
        Place {
            at: offset / 8,
            r: offset % 8,
        }
    }

    // The same bit, j bytes further on.
    pub(crate) fn on(self, j: usize) -> Place
        requires { self.at + j ≤ 2 ^ 62 }
        ensures at { result.at ≡ self.at + j }
        ensures r { result.r ≡ self.r }
    {
        Place {
            at: self.at + j,
            r: self.r,
        }
    }
}

// The byte at i, 0 past the end.
pub(crate) fn byte(s: &[u8], i: usize) -> u64
    ensures { result ≡ get_or s.now i 0 }
{
    if i < s.len() { u64::from(s[i]) } else { 0 }
}

// The 64 bits from byte at on, zeros past the end. A byte's place alone, so no Place.
pub(crate) fn word(s: &[u8], at: usize) -> u64
    requires { at ≤ 2 ^ 62 }
    ensures { result ≡ Bits.get_bits s.now (8 * at) 64 }
{
    if at + 8 <= s.len() {
        return load_n::<8>(s, at);
    }
    last_word(s, at)
}

// The same near the end: the last eight bytes shifted down, or as many bytes as there are.
#[tactic(auto, using(crate::proofs::Runs::word_none, crate::proofs::Runs::word_last, crate::proofs::Runs::word_end))]
fn last_word(s: &[u8], at: usize) -> u64
    requires { (at ≤ 2 ^ 62) × (length s.now < at + 8) }
    ensures { result ≡ Bits.get_bits s.now (8 * at) 64 }
{
    if s.len() <= at {
        return 0;
    }
    if 8 <= s.len() {
        let over = at + 8 - s.len();
        return load_n::<8>(s, s.len() - 8) >> (8 * over);
    }
    load_bytes(s, at, s.len() - at)
}

// The n bits from bit r of the m bytes at at become the lowest of v, as far as these bytes hold them.
#[tactic(auto, using(crate::proofs::Runs::splice_law))]
fn splice(s: &mut [u8], at: usize, m: usize, r: usize, n: usize, v: u64)
    requires { (m ≤ 8) × (r < 8 * m) × (at + m ≤ length s.old) }
    ensures { s.new ≡ Bits.set_bits s.old (8 * at + r) (min n (8 * m - r)) v }
{
    let old = load_bytes(s, at, m);
    store_bytes(s, at, m, merge_at(old, r, n, v));
}

// The same for eight bytes: one load and one store of the machine, which splice is not, since its m is known only as it runs.
#[tactic(auto, using(crate::proofs::Runs::splice8_law))]
fn splice8(s: &mut [u8], at: usize, r: usize, n: usize, v: u64)
    requires { (r < 64) × (at + 8 ≤ length s.old) }
    ensures { s.new ≡ Bits.set_bits s.old (8 * at + r) (min n (64 - r)) v }
{
    let old = load_n::<8>(s, at);
    store_n::<8>(s, at, merge_at(old, r, n, v));
}

// The lowest n bits of the byte at i become those of v; past the end there is nothing to write.
#[tactic(auto, using(crate::proofs::With::with_bits_past, crate::proofs::Runs::splice_byte_law))]
pub(crate) fn splice_byte(s: &mut [u8], i: usize, n: usize, v: u64)
    requires { n ≤ 8 }
    ensures { s.new ≡ Bits.set_bits s.old (8 * i) n v }
{
    if i < s.len() {
        let old = load_n::<1>(s, i);
        store_n::<1>(s, i, merge_low(old, n, v));
    }
}

// The n bits from p on.
#[tactic(auto, using(crate::proofs::Runs::get_one, crate::proofs::Runs::get_two))]
pub(crate) fn get_at(s: &[u8], p: Place, n: usize) -> u64
    requires { n ≤ 64 }
    ensures { result ≡ Bits.get_bits s.now (8 * p.at + p.r) n }
{
    let w = word(s, p.at) >> p.r;
    if 64 < p.r + n {
        return low(w | (byte(s, p.at + 8) << (64 - p.r)), n);
    }
    low(w, n)
}

// Near the end: in the last eight bytes, or in as many as there are.
#[tactic(auto, using(crate::proofs::With::with_bits_past, crate::proofs::Runs::set_last, crate::proofs::Runs::set_few))]
fn set_last(s: &mut [u8], p: Place, n: usize, v: u64)
    requires { length s.old < p.at + 8 }
    ensures { s.new ≡ Bits.set_bits s.old (8 * p.at + p.r) n v }
{
    if s.len() <= p.at {
        return;
    }
    if 8 <= s.len() {
        let last = s.len() - 8;
        splice8(s, last, 8 * (p.at - last) + p.r, n, v);
    } else {
        splice(s, p.at, s.len() - p.at, p.r, n, v);
    }
}

// The n bits from p on become the lowest of v.
#[tactic(auto, using(crate::proofs::Runs::set_one, crate::proofs::Runs::set_two))]
pub(crate) fn set_at(s: &mut [u8], p: Place, n: usize, v: u64)
    requires { n ≤ 64 }
    ensures { s.new ≡ Bits.set_bits s.old (8 * p.at + p.r) n v }
{
    if p.at + 8 <= s.len() {
        splice8(s, p.at, p.r, n, v);
        if 64 < p.r + n {
            splice_byte(s, p.at + 8, p.r + n - 64, v >> (64 - p.r));
        }
    } else {
        set_last(s, p, n, v);
    }
}

// The number in the length bits of s from offset on. A length over 64 counts as 64.
pub fn get_bits(s: &[u8], offset: usize, length: usize) -> u64
    ensures { result ≡ Bits.get_bits s.now offset (min length 64) }
{
    get_at(s, Place::of(offset), length.min(64))
}

// The length bits of s from offset on become the lowest of value. A length over 64 counts as 64.
pub fn set_bits(s: &mut [u8], offset: usize, length: usize, value: u64)
    ensures { s.new ≡ Bits.set_bits s.old offset (min length 64) value }
{
    set_at(s, Place::of(offset), length.min(64), value);
}
