// The two lines of an answer, written behind those before it, as far as the output reaches.
// An answer has at most 1,060 bytes and an input at most 65,536 jobs, so no place is over 100,000,000.
ghost use Rattle.std.specs.Prelude.{◌++◌, ◌+◌, ◌≤◌, length};
ghost use Rattle.text.specs.Written.{decimal_text, hex_text};
ghost use Rattle.script.specs.Ops.{shown, refused_by};
ghost use Rattle.script.specs.Runs.{status_line, answer_lines};
ghost use Rattle.script.specs.Steps.{Puts, Tells};

use text::written::{put_bytes, put_decimal, put_pairs};
use types::refusal::Refusal;

// An output, and the place behind what is written so far. That the place is small is a `requires` and no ghost field: each put moves it on, so no one bound is a fact of every output.
#[derive(Drop)]
pub struct Answers<'a> {
    pub out: &'a mut [u8],
    pub at: usize,
}

impl Answers<'_> {
    fn put_bytes(&mut self, bytes: &[u8])
        requires { (self.old.at ≤ 200000000) × (length bytes.now ≤ 512) }
        ensures { Puts self.old bytes.now self.new }
    {
        put_bytes(self.out, self.at, bytes);
        self.at += bytes.len();
    }

    #[tactic(auto, using(text::proofs::Decimals::decimal_most))]
    fn put_decimal(&mut self, n: u64)
        requires { self.old.at ≤ 200000000 }
        ensures { Puts self.old (decimal_text n) self.new }
    {
        self.at += put_decimal(self.out, self.at, n);
    }

    #[tactic(auto, using(text::proofs::Hexes::hex_length))]
    fn put_pairs(&mut self, bytes: &[u8])
        requires { (self.old.at ≤ 200000000) × (length bytes.now ≤ 512) }
        ensures { Puts self.old (hex_text bytes.now) self.new }
    {
        put_pairs(self.out, self.at, bytes);
        self.at += 2 * bytes.len();
    }

    // `status=`, the number, `value=`.
    #[tactic(auto, using(text::proofs::Decimals::decimal_most))]
    fn put_status(&mut self, number: u8)
        requires { self.old.at ≤ 100000000 }
        ensures { Puts self.old (status_line number) self.new × (self.new.at ≤ self.old.at + 34) }
    {
        self.put_bytes(b"status=");
        self.put_decimal(u64::from(number));
        self.put_bytes(b"\nvalue=");
    }

    // `-` on refusal.
    pub(crate) fn put_refusal(&mut self, r: Refusal)
        requires { self.old.at ≤ 100000000 }
        ensures { Tells self.old (refused_by r) self.new }
    {
        self.put_status(u8::from(r));
        self.put_bytes(b"-\n");
    }

    // A decimal Integer.
    #[tactic(auto, using(text::proofs::Decimals::decimal_most))]
    pub(crate) fn put_number(&mut self, n: u64)
        requires { self.old.at ≤ 100000000 }
        ensures { Tells self.old (shown (decimal_text n)) self.new }
    {
        self.put_status(0);
        self.put_decimal(n);
        self.put_bytes(b"\n");
    }

    // Hex pairs behind a letter.
    #[tactic(auto, using(text::proofs::Hexes::hex_length))]
    pub(crate) fn put_hex(&mut self, letter: &[u8], bytes: &[u8])
        requires { (self.old.at ≤ 100000000) × (length letter.now ≤ 1) × (length bytes.now ≤ 512) }
        ensures { Tells self.old (shown (letter.now ++ hex_text bytes.now)) self.new }
    {
        self.put_status(0);
        self.put_bytes(letter);
        self.put_pairs(bytes);
        self.put_bytes(b"\n");
    }
}
