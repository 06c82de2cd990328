// Document 01's script program: reads standard input to its end, answers its jobs, writes the answers to standard output.
// 65,537 bytes are enough to know that an input is too long; 589,860 are room for any output (script/proofs/Sizes, never_short).
#![tactic(auto)]

use std::io::{self, Read, Write};

fn main(rt: HostRuntime) -> io::Result<()> {
    let mut text = [0u8; 65537];
    let mut out = [0u8; 589860];
    answer(&mut rt.stdin(), &mut rt.stdout(), &mut text, &mut out)
}

// The whole input is read into text, and its answers are put together in out.
fn answer(
    input: &mut impl Read,
    output: &mut impl Write,
    text: &mut [u8; 65537],
    out: &mut [u8; 589860],
) -> io::Result<()> {
    let n = input::read_full(input, text)?;
    if let Ok(m) = script::script(&text[..n], out) {
        return write_first(output, out, m);
    }
    Ok(())
}

// The first n bytes.
fn write_first(output: &mut impl Write, out: &[u8], n: usize) -> io::Result<()> {
    if out.len() < n {
        return Ok(());
    }
    output.write_all(&out[..n])
}
