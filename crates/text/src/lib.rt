// Texts: the numbers that digits say (decimal, hex of either case, leading zeros free), lines and hex pairs, and what is written.
// No public function has a `requires`.
#![tactic(auto)]

pub mod lines; // lines, names, hex pairs: what is read
pub mod written; // bytes, hex pairs, decimal numbers: what is written

ghost use Rattle.std.specs.Prelude.{◌≡◌, ◌≤◌, cond, ltb};
ghost use Rattle.text.specs.Texts.{digit_of, number_of};

// What a character says as a digit; 255 where it is none.
#[tactic(auto, unfolding(crate::specs::Texts::digit_of), using(std::proofs::lemmas::Bool::Decides::nat_tests))]
pub fn digit(c: u8) -> u64
    ensures { (result ≡ digit_of c) × (result ≤ 255) }
{
    match c {
        b'0'..=b'9' => u64::from(c - b'0'),
        b'A'..=b'F' => u64::from(c - b'A' + 10),
        b'a'..=b'f' => u64::from(c - b'a' + 10),
        _ => 255,
    }
}

// The same; None where it is none. A match of its own: over `digit` it was tried, and a job of long texts took an eighth more instructions.
#[tactic(auto, unfolding(crate::specs::Texts::digit_of), using(std::proofs::lemmas::Bool::Decides::nat_tests))]
pub fn checked_digit(c: u8) -> Option<u8>
    ensures { result ≡ cond (ltb (digit_of c) 16) (Some (digit_of c)) None }
{
    match c {
        b'0'..=b'9' => Some(c - b'0'),
        b'A'..=b'F' => Some(c - b'A' + 10),
        b'a'..=b'f' => Some(c - b'a' + 10),
        _ => None,
    }
}

// The number that the digits of the base say. It stops at the first character that is none, and where 64 bits do not hold the number.
fn in_base(s: &[u8], base: u64) -> Option<u64>
    requires { (2 ≤ base) × (base ≤ 16) }
    ensures { result ≡ number_of base s.now }
{
    if s.is_empty() {
        return None;
    }
    let mut acc: u64 = 0;
    for &c in s {
        let d = digit(c);
        if base <= d {
            return None;
        }
        // Not `checked_mul` and `checked_add`: tried, and a decimal number takes five times as long.
        if (u64::MAX - d) / base < acc {
            return None;
        }
        acc = acc * base + d;
    }
    Some(acc)
}

pub fn decimal(s: &[u8]) -> Option<u64>
    ensures { result ≡ number_of 10 s.now }
{
    in_base(s, 10)
}

pub fn hexadecimal(s: &[u8]) -> Option<u64>
    ensures { result ≡ number_of 16 s.now }
{
    in_base(s, 16)
}
