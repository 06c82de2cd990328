// One schedule: the calls of a word, each digit the task whose turn it is, then what a refused step left over.
ghost use Rattle.std.specs.Prelude.{◌<◌};

use crate::ops::may_be_together;
use field_unit::access::FieldOp;
use field_unit::whole::{read_field, write_field};
use task::table::{Step, Table};

// Where a task stands: to be started, under way, or with nothing left to do.
#[derive(Clone, Copy)]
pub enum Stage {
    Ready(FieldOp),
    UnderWay(FieldOp),
    Over,
}

// An operation that has ended, and what it answered: a read its value, a write 0.
#[derive(Clone, Copy)]
pub struct End {
    pub op: FieldOp,
    pub got: u64,
}

// ends: in the order in which they finished. met: the premise held at every moment. waits: steps refused because another task held the lock.
#[derive(Clone, Copy)]
pub struct Run {
    pub table: Table,
    pub stages: [Stage; 3],
    pub ends: [Option<End>; 3],
    pub met: bool,
    pub waits: u64,
}

impl Run {
    pub(crate) fn new(stages: [Stage; 3]) -> Run {
        Run {
            table: Table::new(12).table,
            stages,
            ends: [None; 3],
            met: true,
            waits: 0,
        }
    }

    // Whether the premise holds of the operation and each that is under way.
    fn joins(&self, op: FieldOp) -> bool {
        self.stages.iter().all(|stage| match stage {
            Stage::UnderWay(other) => may_be_together(op, *other),
            _ => true,
        })
    }

    // A task stays a number below 3: a word's digit and an index of stages, for which a type would say no more.
    fn start(&mut self, op: FieldOp, region: &[u8], task: usize)
        requires { task < 3 }
    {
        let started = self.table.start(region, task, op);
        self.table = started.table;
        if started.answer.is_ok() {
            self.met = self.met && self.joins(op);
            self.stages[task] = Stage::UnderWay(op);
        }
    }

    fn finish(&mut self, op: FieldOp, task: usize, got: u64)
        requires { task < 3 }
    {
        self.stages[task] = Stage::Over;
        for end in self.ends.iter_mut() {
            if end.is_none() {
                *end = Some(End { op, got });
                break;
            }
        }
    }

    fn step(&mut self, op: FieldOp, region: &mut [u8], task: usize)
        requires { task < 3 }
    {
        let stepped = self.table.step(region, task);
        self.table = stepped.table;
        match stepped.answer {
            Ok(Step::More) => {}
            Ok(Step::Done) => self.finish(op, task, 0),
            Ok(Step::Value(value)) => self.finish(op, task, value),
            Err(_) => self.waits = self.waits.wrapping_add(1),
        }
    }

    // The task's next call: its start, a step, or none once it has ended.
    fn call(&mut self, region: &mut [u8], task: usize)
        requires { task < 3 }
    {
        match self.stages[task] {
            Stage::Ready(op) => self.start(op, region, task),
            Stage::UnderWay(op) => self.step(op, region, task),
            Stage::Over => {}
        }
    }

    // The calls that the word's digits say, lowest first.
    pub(crate) fn follow(&mut self, region: &mut [u8], word: u64, length: usize) {
        let mut rest = word;
        for _ in 0..length {
            self.call(region, (rest % 3) as usize);
            rest = rest / 3;
        }
    }

    // Each task in turn, in as many rounds as there can be calls left.
    pub(crate) fn run_out(&mut self, region: &mut [u8], length: usize) {
        for _ in 0..length {
            for task in 0..3 {
                self.call(region, task);
            }
        }
    }

    // Was an operation left over?
    pub(crate) fn leaves(&self) -> bool {
        self.stages
            .iter()
            .any(|stage| !matches!(stage, Stage::Over))
    }

    // The ended operations run whole, in the order in which they finished. Answers whether each gives what it gave in the run.
    pub(crate) fn again(&self, region: &mut [u8]) -> bool {
        for end in self.ends.iter().flatten() {
            if whole(end.op, region) != end.got {
                return false;
            }
        }
        true
    }
}

// The operation as a whole call. Answers what a read gives.
fn whole(op: FieldOp, region: &mut [u8]) -> u64 {
    if op.write {
        let _ = write_field(region, op.field, op.value);
        return 0;
    }
    read_field(region, op.field).map_or(0, |read| read.value)
}
