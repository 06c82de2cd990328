// All schedules of some operations: the words whose digits say each task as often as it has calls.
use crate::run::{Run, Stage};
use field_unit::access::FieldOp;
use std::fmt;
use std::ops::Add;

// A task's operation, and how many calls it takes: its start and its accesses.
#[derive(Clone, Copy)]
pub struct Work {
    pub op: FieldOp,
    pub calls: u64,
}

// Schedules run; those that meet the premise, and of them those that agree with whole calls; those that do not meet it, and of them
// those that differ; steps refused because another task held the lock; schedules in which an operation was left over.
#[derive(Clone, Copy, Default)]
pub struct Counts {
    pub run: u64,
    pub met: u64,
    pub agree: u64,
    pub unmet: u64,
    pub differ: u64,
    pub waits: u64,
    pub left: u64,
}

impl Add for Counts {
    type Output = Counts;

    fn add(self, other: Counts) -> Counts {
        Counts {
            run: self.run.wrapping_add(other.run),
            met: self.met.wrapping_add(other.met),
            agree: self.agree.wrapping_add(other.agree),
            unmet: self.unmet.wrapping_add(other.unmet),
            differ: self.differ.wrapping_add(other.differ),
            waits: self.waits.wrapping_add(other.waits),
            left: self.left.wrapping_add(other.left),
        }
    }
}

impl fmt::Display for Counts {
    fn fmt<W: fmt::Write>(&self, f: &mut fmt::Formatter<W>) -> fmt::Result {
        let Counts {
            run,
            met,
            agree,
            unmet,
            differ,
            waits,
            left,
        } = *self;
        write!(f, "schedules {run}; meet the premise {met}, agree {agree}")?;
        write!(f, "; do not meet it {unmet}, differ {differ}")?;
        write!(f, "; waits {waits}, left over {left}")
    }
}

// The calls of a task; none without an operation.
fn calls(work: Option<Work>) -> u64 {
    work.map_or(0, |work| work.calls)
}

fn stage(work: Option<Work>) -> Stage {
    work.map_or(Stage::Over, |work| Stage::Ready(work.op))
}

// Does the word have each task's digit as often as the task has calls? Its digits, lowest first, are taken as `follow` takes them: a digit below 3 is an index by `%`, which an iterator's item is not.
fn is_schedule(works: [Option<Work>; 3], word: u64, length: usize) -> bool {
    let mut left = works.map(calls);
    let mut rest = word;
    for _ in 0..length {
        let task = (rest % 3) as usize;
        if left[task] == 0 {
            return false;
        }
        left[task] -= 1;
        rest = rest / 3;
    }
    true
}

const BYTES: [u8; 12] = [
    0x1b, 0x64, 0xd2, 0x8f, 0x39, 0xe7, 0x50, 0xac, 0x05, 0xfa, 0x93, 0x7e,
];

// One schedule, run to its end, and its operations run whole.
fn judge(works: [Option<Work>; 3], word: u64, length: usize) -> Counts {
    let mut together = BYTES;
    let mut apart = BYTES;
    let mut run = Run::new(works.map(stage));
    run.follow(&mut together, word, length);
    run.run_out(&mut together, length);
    let agrees = run.again(&mut apart) && together == apart;
    Counts {
        run: 1,
        met: u64::from(run.met),
        agree: u64::from(run.met && agrees),
        unmet: u64::from(!run.met),
        differ: u64::from(!run.met && !agrees),
        waits: run.waits,
        left: u64::from(run.leaves()),
    }
}

// All schedules of these operations, if they have at most 12 calls.
pub(crate) fn all(works: [Option<Work>; 3]) -> Counts {
    let [a, b, c] = works.map(calls);
    let length = a.wrapping_add(b).wrapping_add(c);
    let mut counts = Counts::default();
    if 12 < length {
        return counts;
    }
    for word in 0..3_u64.wrapping_pow(length as u32) {
        if is_schedule(works, word, length as usize) {
            counts = counts + judge(works, word, length as usize);
        }
    }
    counts
}
