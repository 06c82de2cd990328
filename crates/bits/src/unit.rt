// Whole bytes as a number, lowest first: a machine's load and store of 1, 2, 4 or 8 of them.
ghost use Rattle.std.specs.Prelude.{◌≡◌, ◌+◌, ◌-◌, ◌*◌, ◌≤◌, ◌<◌, min, length};
ghost use Rattle.bits.specs.Bits.{get_bits, set_bits};

use crate::bytes::copy;

// The N bytes from at on.
#[tactic(auto, using(crate::proofs::Words::load_copied))]
pub(crate) fn load_n<const N: usize>(s: &[u8], at: usize) -> u64
    requires { (N ≤ 8) × (at + N ≤ length s.now) }
    ensures { result ≡ get_bits s.now (8 * at) (8 * N) }
{
    let mut bytes = [0; 8];
    copy(&s[at..at + N], &mut bytes);
    u64::from_le_bytes(bytes)
}

// The N bytes from at on become the lowest of v.
#[tactic(auto, using(crate::proofs::Words::store_copied))]
pub(crate) fn store_n<const N: usize>(s: &mut [u8], at: usize, v: u64)
    requires { (N ≤ 8) × (at + N ≤ length s.old) }
    ensures { s.new ≡ set_bits s.old (8 * at) (8 * N) v }
{
    copy(&v.to_le_bytes()[..N], &mut s[at..at + N]);
}

// The n bytes from at on: two accesses that may overlap, since a copy of n bytes, known only as it runs, would be a call.
#[tactic(auto, unfolding(crate::specs::Bits::run), using(crate::proofs::Words::load_two))]
pub(crate) fn load_bytes(s: &[u8], at: usize, n: usize) -> u64
    requires { (n ≤ 8) × (n ≤ length s.now - at) }
    ensures { result ≡ get_bits s.now (8 * at) (8 * n) }
{
    if 4 <= n {
        let d = n - 4;
        return load_n::<4>(s, at) | (load_n::<4>(s, at + d) << (8 * d));
    }
    if 2 <= n {
        let d = n - 2;
        return load_n::<2>(s, at) | (load_n::<2>(s, at + d) << (8 * d));
    }
    if n == 1 {
        return load_n::<1>(s, at);
    }
    0
}

#[tactic(auto, using(crate::proofs::Words::store_two, crate::proofs::With::with_bits_zero))]
pub(crate) fn store_bytes(s: &mut [u8], at: usize, n: usize, v: u64)
    requires { (n ≤ 8) × (n ≤ length s.old - at) }
    ensures { s.new ≡ set_bits s.old (8 * at) (8 * n) v }
{
    if 4 <= n {
        let d = n - 4;
        store_n::<4>(s, at, v);
        store_n::<4>(s, at + d, v >> (8 * d));
    } else if 2 <= n {
        let d = n - 2;
        store_n::<2>(s, at, v);
        store_n::<2>(s, at + d, v >> (8 * d));
    } else if n == 1 {
        store_n::<1>(s, at, v);
    }
}

// The n bytes from at on: one access of the machine where n is 1, 2, 4 or 8. A longer n counts as 8.
#[tactic(auto, using(crate::proofs::Words::load_past))]
pub fn load(s: &[u8], at: usize, n: usize) -> u64
    ensures { result ≡ get_bits s.now (8 * at) (8 * min n 8) }
{
    let m = s.len().saturating_sub(at);
    if n <= m {
        match n {
            1 => return load_n::<1>(s, at),
            2 => return load_n::<2>(s, at),
            4 => return load_n::<4>(s, at),
            8 => return load_n::<8>(s, at),
            _ => (),
        }
    }
    load_bytes(s, at, n.min(8).min(m))
}

// The n bytes from at on become the lowest of v.
#[tactic(auto, using(crate::proofs::Words::store_past))]
pub fn store(s: &mut [u8], at: usize, n: usize, v: u64)
    ensures { s.new ≡ set_bits s.old (8 * at) (8 * min n 8) v }
{
    let m = s.len().saturating_sub(at);
    if n <= m {
        match n {
            1 => return store_n::<1>(s, at, v),
            2 => return store_n::<2>(s, at, v),
            4 => return store_n::<4>(s, at, v),
            8 => return store_n::<8>(s, at, v),
            _ => (),
        }
    }
    store_bytes(s, at, n.min(8).min(m), v)
}
