// The bytes that a job lends, named by a length and a seed, and what is told of them after the call.
ghost use Rattle.std.specs.Prelude.{◌≡◌, length};

use crate::lines::put;

// The seed that names the bytes of the head.
pub const HEADED: u64 = 2;

// So many bytes, by the jobs' seeds: 0 names zeros, 1 ones, 2 the bytes of the head with zeros behind them, 3 the text 0..01, any other a linear
// congruence, from 2^31 on in seven bits.
#[derive(Clone, Copy)]
pub struct Pattern {
    pub count: usize,
    pub seed: u64,
    pub head: [u8; 32],
}

impl Pattern {
    // The room's first bytes, as many as are named, cut to those there are.
    pub(crate) fn lend<'a>(&self, room: &'a mut [u8]) -> &'a mut [u8] {
        let n = self.count.min(room.len());
        let bytes = &mut room[..n];
        self.fill(bytes);
        bytes
    }

    fn fill(&self, bytes: &mut [u8]) {
        match self.seed {
            0 => bytes.fill(0),
            1 => bytes.fill(255),
            HEADED => fill_head(&self.head, bytes),
            3 => fill_text(bytes),
            4..0x8000_0000 => fill_shades(self.seed, 255, bytes),
            _ => fill_shades(self.seed, 127, bytes),
        }
    }
}

fn fill_head(head: &[u8; 32], bytes: &mut [u8]) {
    bytes.fill(0);
    bits::bytes::copy(head, bytes);
}

fn fill_text(bytes: &mut [u8]) {
    bytes.fill(b'0');
    if let Some(last) = bytes.last_mut() {
        *last = b'1';
    }
}

fn fill_shades(seed: u64, mask: u8, bytes: &mut [u8]) {
    let mut x = (seed % 0x1_0000_0000) as u32;
    for byte in bytes {
        *byte = x.to_le_bytes()[2] & mask;
        x = x.wrapping_mul(1103515245).wrapping_add(12345);
    }
}

// Adler-32 of the bytes.
fn sum(bytes: &[u8]) -> u32 {
    let mut a = 1;
    let mut b = 0;
    for byte in bytes {
        a = (a + u32::from(*byte)) % 65521;
        b = (b + a) % 65521;
    }
    b * 65536 + a
}

// The sum, and behind it sixteen bytes from one on, 0 past the end.
pub(crate) fn tell(columns: &mut [u8], bytes: &[u8], from: usize)
    requires { length columns.old ≡ 41 }
{
    put(&mut columns[..8], u64::from(sum(bytes)));
    let shown = &bytes[from.min(bytes.len())..];
    let (pairs, _) = columns[9..].as_chunks_mut::<2>();
    for (i, pair) in pairs.iter_mut().enumerate() {
        put(pair, u64::from(shown.get(i).copied().unwrap_or(0)));
    }
}
