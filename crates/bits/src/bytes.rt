// Whole bytes, from one slice to another.
ghost use Rattle.std.specs.Prelude.{◌≡◌, ◌++◌, length, take, drop, min};

// The first bytes of src, as many as there is room for, at the front of dst; what is behind them stays. How many they are.
pub fn copy(src: &[u8], dst: &mut [u8]) -> usize
    ensures count { result ≡ min (length src.now) (length dst.old) }
    ensures bytes { dst.new ≡ take (min (length src.now) (length dst.old)) src.now ++ drop (min (length src.now) (length dst.old)) dst.old }
{
    let n = src.len().min(dst.len());
    // not copy_from_slice: by it the linked archive would need memmove of its host, and it may need memcpy and memset only
    for i in 0..n {
        dst[i] = src[i];
    }
    n
}
