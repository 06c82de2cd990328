// The columns of an answer: what the call gave; the same step by step; the check and the count alone.
ghost use Rattle.std.specs.Prelude.{◌≡◌, ◌+◌, ◌≤◌};

use crate::lent::tell;
use crate::lines::put;
use std::ops::Range;
use types::refusal::{Refusal, Types, types_of};

const STATUS: Range<usize> = 0..2; // 0, or the refusal's number

const PRESENT: Range<usize> = 3..5; // the types that it carries

const WANTED: Range<usize> = 6..8;

const RESULT: Range<usize> = 9..11;

const VALUE: Range<usize> = 12..28;

pub const COUNT: Range<usize> = 29..45; // of accesses, or of the result's bytes

pub const FIRST: Range<usize> = 46..87; // the bytes lent beside the first and the second operand, after the call

pub const SECOND: Range<usize> = 88..129;

pub const STEP_STATUS: Range<usize> = 130..132;

pub const HELD: Range<usize> = 133..149;

pub const STEPS: Range<usize> = 150..166;

pub const CHECK_STATUS: Range<usize> = 167..169;

pub const COUNT_STATUS: Range<usize> = 170..172;

pub const COUNTED: Range<usize> = 173..189;

pub const OUT: Range<usize> = 190..231; // the output after the call

// What a call gives is; the numbers are those of the answers (RESULTS in tests/lines.py), 0 for nothing of these.
#[derive(Clone, Copy)]
pub enum Kind {
    Integer = 1,
    Buffer = 2,
    Held = 3,
    NoAccess = 4,
    String = 5,
    Bool = 6,
    Status = 7,
    Itself = 8,
    Order = 9,
    Part = 10,
}

// What a call gave: a number; how many bytes, or how many accesses it took.
#[derive(Clone, Copy, Default)]
pub struct Given {
    pub kind: Option<Kind>,
    pub value: u64,
    pub count: u64,
}

impl Given {
    pub(crate) fn number(kind: Kind, value: u64) -> Given {
        Given {
            kind: Some(kind),
            value,
            count: 0,
        }
    }

    pub(crate) fn bytes(kind: Kind, count: usize) -> Given {
        Given {
            kind: Some(kind),
            value: 0,
            count: count as u64,
        }
    }

    // A write's accesses.
    pub(crate) fn accesses(count: u64) -> Given {
        Given {
            kind: None,
            value: 0,
            count,
        }
    }
}

// A refusal's or a type's number.
pub(crate) fn number(x: impl Into<u8>) -> u64 {
    u64::from(x.into())
}

// An answer's line.
#[derive(Clone, Copy)]
pub struct Text(pub [u8; 232]);

impl Text {
    // Every column 0, but those of the lent bytes.
    pub(crate) fn blank() -> Text {
        let mut text = Text([b' '; 232]);
        text.put(STATUS, 0);
        text.put(PRESENT, 0);
        text.put(WANTED, 0);
        text.put(RESULT, 0);
        text.put(VALUE, 0);
        text.put(COUNT, 0);
        text.put(STEP_STATUS, 0);
        text.put(HELD, 0);
        text.put(STEPS, 0);
        text.put(CHECK_STATUS, 0);
        text.put(COUNT_STATUS, 0);
        text.put(COUNTED, 0);
        text.0[231] = b'\n';
        text
    }

    // The number into these columns.
    pub(crate) fn put(&mut self, columns: Range<usize>, x: u64)
        requires { (columns.start ≤ columns.end) × (columns.end ≤ 232) }
    {
        put(&mut self.0[columns], x);
    }

    // What is told of bytes into these columns.
    pub(crate) fn tell(&mut self, columns: Range<usize>, bytes: &[u8], from: usize)
        requires { (columns.end ≡ columns.start + 41) × (columns.end ≤ 232) }
    {
        tell(&mut self.0[columns], bytes, from);
    }

    // What the call gave, or the refusal's number and the types that it carries.
    pub(crate) fn answer(&mut self, answered: Result<Given, Refusal>) {
        match answered {
            Ok(given) => {
                self.put(RESULT, given.kind.map_or(0, |kind| kind as u64));
                self.put(VALUE, given.value);
                self.put(COUNT, given.count);
            }
            Err(r) => self.refused(r),
        }
    }

    fn refused(&mut self, r: Refusal) {
        self.put(STATUS, number(r));
        match types_of(r) {
            Types::Nothing => {}
            Types::Met(t) => self.put(PRESENT, number(t)),
            Types::Conversion { current, target } => {
                self.put(PRESENT, number(current));
                self.put(WANTED, number(target));
            }
        }
    }
}
