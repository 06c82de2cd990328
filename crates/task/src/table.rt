// The task table: up to four tasks, each at one read or write of a field unit, and the lock. A refused call leaves it as it was.
ghost use Rattle.std.specs.Prelude.{IfOk, ◌≡◌, ◌<◌};
ghost use Rattle.types.specs.Refusals.{first_of};
ghost use Rattle.task.specs.Tasks as T;

use crate::one::{check_call, start_task, step_task};
use field_unit::access::FieldOp;
use types::flags::FieldFlags;
use types::refusal::Refusal;
use types::value::{FieldUnit, RegionSpace};

// A task: what it runs, how many accesses it has made, and what its loads hold for those to come. A flag and no Option: a task that is not busy has an
// operation too, which the C interface hands on (`task_of`, `numbers_of_task`, link/specs/Tables).
#[derive(Clone, Copy)]
pub struct Task {
    pub busy: bool,
    pub op: FieldOp,
    pub made: u64,
    pub held: u64,
}

// The region's length, the task that holds the lock (4: none), the tasks.
// A number and no Option: `wrong_holder` (specs/Tasks) speaks of any number, and the C interface has it.
#[derive(Clone, Copy)]
pub struct Table {
    pub size: u64,
    pub holder: u64,
    pub tasks: [Task; 4],
}

// A new table, or one for no bytes beside a refusal.
// A table stands beside a refusal too: NewSays (link/specs/Tables) says which.
#[derive(Clone, Copy)]
pub struct Made {
    pub table: Table,
    pub answer: Result<(), Refusal>,
}

// The table after a start or a step, and what it answers. Document 01 names the form ("The shape we want in each place"): a method takes
// the table by value and hands the next one back beside the answer.
#[derive(Clone, Copy)]
pub struct Started {
    pub table: Table,
    pub answer: Result<u64, Refusal>,
}

#[derive(Clone, Copy)]
pub struct Stepped {
    pub table: Table,
    pub answer: Result<Step, Refusal>,
}

// More accesses to come; a write's end; a read's end with its value.
#[derive(Clone, Copy)]
pub enum Step {
    More,
    Done,
    Value(u64),
}

impl Task {
    // What an idle task's record holds.
    pub(crate) fn idle() -> Task
        ensures { result ≡ T.idle }
    {
        Task {
            busy: false,
            op: FieldOp {
                write: false,
                field: FieldUnit {
                    space: RegionSpace::SystemMemory,
                    flags: FieldFlags(0),
                    offset: 0,
                    length: 0,
                },
                value: 0,
            },
            made: 0,
            held: 0,
        }
    }
}

impl Table {
    fn fresh(size: u64) -> Table
        ensures { result ≡ T.fresh size }
    {
        Table {
            size,
            holder: 4,
            tasks: [Task::idle(); 4],
        }
    }

    // A table for a region of size bytes.
    #[tactic(auto, unfolding(crate::specs::Tasks::new_table, types::specs::Refusals::first_of))]
    pub fn new(size: u64) -> Made
        ensures { result ≡ T.new_table size }
    {
        if 65536 < size {
            return Made {
                table: Table::fresh(0),
                answer: Err(Refusal::TooManyBytes),
            };
        }
        Made {
            table: Table::fresh(size),
            answer: Ok(()),
        }
    }

    // 27, 31, 24, 30: what start and step check alike.
    #[tactic(auto, using(crate::proofs::Named::call_small))]
    fn check(self, bytes: usize, task: usize) -> Result<(), Refusal>
        ensures says { result ≡ first_of (T.call_checks self bytes task) }
        ensures few { IfOk result (λ _. task < 4) }
    {
        check_call(self.is_malformed(), self.size, bytes, task)
    }

    // What `start` does.
    #[tactic(auto, using(crate::proofs::Named::start_unchecked, crate::proofs::Named::start_stayed, crate::proofs::Named::start_begun))]
    fn begin(&mut self, region: &[u8], task: usize, op: FieldOp) -> Result<u64, Refusal>
        ensures { (record { table = self.new; answer = result }) ≡ T.start self.old region.now task op }
    {
        self.check(region.len(), task)?;
        let count = start_task(self.size, self.tasks[task].busy, op)?;
        self.tasks[task] = Task {
            busy: true,
            op,
            made: 0,
            held: 0,
        };
        Ok(count)
    }

    // What `step` does.
    #[tactic(auto, using(crate::proofs::Named::step_unchecked, crate::proofs::Named::region_unchecked))]
    fn advance(&mut self, region: &mut [u8], task: usize) -> Result<Step, Refusal>
        ensures { ((record { table = self.new; answer = result }) ≡ T.step self.old region.old task) × (region.new ≡ T.step_region self.old region.old task) }
    {
        self.check(region.len(), task)?;
        step_task(&mut self.holder, task, &mut self.tasks[task], region)
    }

    // Accepts a read, or a write of an integer, for the task. Answers how many accesses it will make.
    pub fn start(self, region: &[u8], task: usize, op: FieldOp) -> Started
        ensures { result ≡ T.start self region.now task op }
    {
        let mut table = self;
        let answer = table.begin(region, task, op);
        Started { table, answer }
    }

    // Makes the task's next load or store on the region, and nothing else.
    pub fn step(self, region: &mut [u8], task: usize) -> Stepped
        ensures { (result ≡ T.step self region.old task) × (region.new ≡ T.step_region self region.old task) }
    {
        let mut table = self;
        let answer = table.advance(region, task);
        Stepped { table, answer }
    }
}
