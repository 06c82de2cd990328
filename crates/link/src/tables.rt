// The task table, as a struct of numbers that the host keeps: it goes in by value and comes back beside the answer. Any numbers are a table; a
// damaged one is 31. Padding there is none, so two tables are equal where their bytes are.
ghost use Rattle.std.specs.Prelude.{IfOk, ◌≡◌, ◌<◌, ◌≤◌};
ghost use Rattle.types.specs.Refusals.{first_of};
ghost use Rattle.task.specs.Tasks as T;
ghost use Rattle.link.specs.Tables as L;

use crate::answer::{Answer, accepted, outcome_answer, told};
use crate::given::field_of;
use field_unit::access::FieldOp;
use task::one::{check_call, start_task, step_task};
use task::table::{Step, Table, Task};
use task::well::malformed_by;
use types::refusal::Refusal;

// busy, write: 0 or 1. space, flags, offset, length: its field. value: what it writes. made: its loads and stores so far. held: what its loads gave.
#[repr(C)]
#[derive(Clone, Copy)]
pub struct HostTask {
    pub busy: u32,
    pub write: u16,
    pub space: u8,
    pub flags: u8,
    pub offset: u64,
    pub length: u64,
    pub value: u64,
    pub made: u64,
    pub held: u64,
}

// size: the region's length in bytes. holder: the task that has the lock, 4 for none.
#[repr(C)]
#[derive(Clone, Copy)]
pub struct HostTable {
    pub size: u64,
    pub holder: u64,
    pub tasks: [HostTask; 4],
}

// The table after a call, and its answer: the C interface.
#[repr(C)]
#[derive(Clone, Copy)]
pub struct Called {
    pub table: HostTable,
    pub answer: Answer,
}

fn op_of(write: u16, space: u8, flags: u8, offset: u64, length: u64, value: u64) -> FieldOp
    ensures { result ≡ L.op_of write space flags offset length value }
{
    FieldOp {
        write: write != 0,
        field: field_of(space, flags, offset, length),
        value,
    }
}

#[tactic(auto, using(crate::proofs::Hosted::busy_wrong, crate::proofs::Hosted::write_wrong, crate::proofs::Hosted::length_right))]
fn length_said(busy: u32, write: u16, length: u64) -> u64
    ensures { result ≡ L.length_said busy write length }
{
    if 1 < busy {
        return 0;
    }
    if 1 < write {
        return 0;
    }
    length
}

// A task of numbers.
impl From<HostTask> for Task {
    ghost from_gives = { λ k t. t ≡ L.task_of k };

    fn from(k: HostTask) -> Task {
        let length = length_said(k.busy, k.write, k.length);
        Task {
            busy: k.busy != 0,
            op: op_of(k.write, k.space, k.flags, k.offset, length, k.value),
            made: k.made,
            held: k.held,
        }
    }
}

// And back.
impl From<Task> for HostTask {
    ghost from_gives = { λ t k. k ≡ L.numbers_of_task t };

    fn from(t: Task) -> HostTask {
        let field = t.op.field;
        HostTask {
            busy: u32::from(t.busy),
            write: u16::from(t.op.write),
            space: u8::from(field.space),
            flags: field.flags.0,
            offset: field.offset,
            length: field.length,
            value: t.op.value,
            made: t.made,
            held: t.held,
        }
    }
}

fn fresh_numbers(size: u64) -> HostTable
    ensures { result ≡ L.fresh_numbers size }
{
    let k = HostTask {
        busy: 0,
        write: 0,
        space: 0,
        flags: 0,
        offset: 0,
        length: 0,
        value: 0,
        made: 0,
        held: 0,
    };
    HostTable {
        size,
        holder: 4,
        tasks: [k; 4],
    }
}

// As unit_written_answer, by a definition of its own: the wrong program "start_answer: the count stands in its place" names this function.
#[tactic(auto, unfolding(crate::specs::Tables::start_answer))]
fn start_answer(a: Result<u64, Refusal>) -> Answer
    requires { L.start_count a ≤ 11 }
    ensures { result ≡ L.start_answer a }
{
    told(a, |n| accepted(0, n as u32, 0))
}

#[tactic(auto, unfolding(crate::specs::Tables::step_answer))]
fn step_answer(a: Result<Step, Refusal>) -> Answer
    ensures { result ≡ L.step_answer a }
{
    told(a, |step| match step {
        Step::More => accepted(0, 1, 0),
        Step::Done => accepted(0, 0, 0),
        Step::Value(x) => accepted(1, 0, x),
    })
}

// A table for a region of size bytes; one for no bytes beside a refusal.
#[unsafe(no_mangle)]
pub extern "C" fn aml_new_table(size: u64) -> Called
    ensures { result ≡ L.new_call size }
{
    let made = Table::new(size);
    Called {
        table: fresh_numbers(made.table.size),
        answer: outcome_answer(made.answer),
    }
}

#[tactic(auto, unfolding(task::specs::Tasks::malformed))]
#[unsafe(no_mangle)]
pub extern "C" fn aml_is_malformed(table: HostTable) -> bool
    ensures { result ≡ T.malformed (L.table_of table) }
{
    let [a, b, c, d] = table.tasks;
    malformed_by(
        table.size,
        table.holder,
        Task::from(a),
        Task::from(b),
        Task::from(c),
        Task::from(d),
    )
}

impl HostTable {
    // 27, 31, 24, 30: what start and step check alike.
    #[tactic(auto, using(crate::proofs::Hosted::host_small))]
    fn check(&self, bytes: usize, task: usize) -> Result<(), Refusal>
        ensures says { result ≡ first_of (T.call_checks (L.table_of self.now) bytes task) }
        ensures few { IfOk result (λ _. task < 4) }
    {
        check_call(aml_is_malformed(*self), self.size, bytes, task)
    }

    // As Table::start.
    #[tactic(auto, using(crate::proofs::Hosted::start_refused, crate::proofs::Hosted::start_kept, crate::proofs::Hosted::start_few))]
    fn start(&mut self, region: &[u8], task: usize, op: FieldOp) -> Result<u64, Refusal>
        ensures says { (record { table = self.new; answer = L.start_answer result }) ≡ L.start_call self.old region.now task op }
        ensures few { L.start_count result ≤ 11 }
    {
        self.check(region.len(), task)?;
        let count = start_task(self.size, Task::from(self.tasks[task]).busy, op)?;
        self.tasks[task] = HostTask::from(Task {
            busy: true,
            op,
            made: 0,
            held: 0,
        });
        Ok(count)
    }

    // As Table::step.
    #[tactic(auto, using(crate::proofs::Hosted::step_refused, crate::proofs::Hosted::step_kept))]
    fn step(&mut self, region: &mut [u8], task: usize) -> Result<Step, Refusal>
        ensures { ((record { table = self.new; answer = L.step_answer result }) ≡ L.step_call self.old region.old task) × (region.new ≡ T.step_region (L.table_of self.old) region.old task) }
    {
        self.check(region.len(), task)?;
        let mut k = Task::from(self.tasks[task]);
        let moved = step_task(&mut self.holder, task, &mut k, region)?;
        self.tasks[task] = HostTask::from(k);
        Ok(moved)
    }
}

// Accepts a read (write is 0), or a write of a value, for the task. The answer's count says how many loads and stores it will make.
#[unsafe(no_mangle)]
pub extern "C" fn aml_start(
    mut table: HostTable,
    region: &[u8],
    task: usize,
    write: u16,
    space: u8,
    flags: u8,
    offset: u64,
    length: u64,
    value: u64,
) -> Called
    ensures { result ≡ L.start_call table region.now task (L.op_of write space flags offset length value) }
{
    let op = op_of(write, space, flags, offset, length, value);
    let answer = start_answer(table.start(region, task, op));
    Called { table, answer }
}

// Makes the task's next load or store on the region. The answer's count is 1 while there are more to come.
#[unsafe(no_mangle)]
pub extern "C" fn aml_step(mut table: HostTable, region: &mut [u8], task: usize) -> Called
    ensures { (result ≡ L.step_call table region.old task) × (region.new ≡ T.step_region (L.table_of table) region.old task) }
{
    let answer = step_answer(table.step(region, task));
    Called { table, answer }
}
