// What a program writes into an output, from a place on: bytes, hex pairs in lower case, decimal numbers.
// What would fall past the output's end is left away; the place may be any number.
ghost use Rattle.std.specs.Prelude.{◌≡◌, ◌<◌, length, drop};
ghost use Rattle.text.specs.Written.{over, hex_digit, hex_text, decimal_text};

pub fn put_bytes(out: &mut [u8], at: usize, bytes: &[u8])
    ensures { out.new ≡ over out.old at bytes.now }
{
    let mut p = at;
    for &b in bytes {
        if out.len() <= p {
            return;
        }
        out[p] = b;
        p += 1;
    }
}

#[tactic(auto, unfolding(crate::specs::Written::hex_digit), using(std::proofs::lemmas::Bool::Decides::nat_tests))]
fn hex_digit(d: u8) -> u8
    requires { d < 16 }
    ensures { result ≡ hex_digit d }
{
    match d {
        0..=9 => b'0' + d,
        _ => b'a' - 10 + d,
    }
}

// Two digits for each byte.
pub fn put_pairs(out: &mut [u8], at: usize, bytes: &[u8])
    ensures { out.new ≡ over out.old at (hex_text bytes.now) }
{
    let mut p = at; // not at + 2 i, which may pass the largest number
    for b in bytes {
        if out.len() <= p {
            return;
        }
        out[p] = hex_digit(b / 16);
        p += 1;
        // Said once more: tried as a loop over the two digits, ten times as slow.
        if out.len() <= p {
            return;
        }
        out[p] = hex_digit(b % 16);
        p += 1;
    }
}

// The digits of n at the end of a row of 20, and where they begin: without a heap, an array and a place.
fn decimal_digits(n: u64) -> ([u8; 20], usize)
    ensures { (drop result.1 result.0 ≡ decimal_text n) × (result.1 < 20) }
{
    let mut d = [0; 20];
    let mut left = n;
    for k in (1..20).rev() {
        d[k] = b'0' + (left % 10) as u8;
        if left < 10 {
            return (d, k);
        }
        left /= 10;
    }
    d[0] = b'0' + left as u8;
    (d, 0)
}

// The decimal digits of n; how many they are.
pub fn put_decimal(out: &mut [u8], at: usize, n: u64) -> usize
    ensures { (out.new ≡ over out.old at (decimal_text n)) × (result ≡ length (decimal_text n)) }
{
    let (d, k) = decimal_digits(n);
    put_bytes(out, at, &d[k..]);
    20 - k
}
