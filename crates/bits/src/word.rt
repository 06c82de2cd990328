// Bits of one machine word.
ghost use Rattle.std.specs.Prelude.{◌≡◌, ◌%◌, ◌<◌, min};
ghost use Rattle.bits.specs.Bits.{bit_of, run, put};

// The low n bits of v.
#[tactic(auto, using(crate::proofs::Words::one_left, crate::proofs::Words::low_law, crate::proofs::Words::low_all))]
pub fn low(v: u64, n: usize) -> u64
    ensures { result ≡ run (bit_of v) 0 n }
{
    if n < 64 { v & ((1 << n) - 1) } else { v }
}

// old with its n bits from at on replaced by value's, as far as 64 bits hold them. A mask picks between the two.
#[tactic(auto, using(crate::proofs::Words::merge_law))]
pub(crate) fn merge_at(old: u64, at: usize, n: usize, value: u64) -> u64
    requires { at < 64 }
    ensures { result ≡ run (put (bit_of old) at n (bit_of value)) 0 64 }
{
    let m = low(0xffff_ffff_ffff_ffff, n) << at;
    old ^ ((old ^ (value << at)) & m)
}

// The same for fewer than 64 bits from bit 0 on: by merge_at a write that reaches into a ninth byte took 80 instructions, not 75.
#[tactic(auto, using(crate::proofs::Words::one_left, crate::proofs::Words::merge_low_law))]
pub(crate) fn merge_low(old: u64, n: usize, value: u64) -> u64
    requires { n < 64 }
    ensures { result ≡ run (put (bit_of old) 0 n (bit_of value)) 0 64 }
{
    old ^ ((old ^ value) & ((1 << n) - 1))
}
