// What start and step do with the one task that they name; a table may be kept in another form than `Table`.
ghost use Rattle.std.specs.Prelude.{true, cond, is_ok, ◌≡◌};
ghost use Rattle.types.specs.Refusals.{first_of};
ghost use Rattle.task.specs.Tasks as T;
ghost use Rattle.task.specs.One as O;

use crate::table::{Step, Task};
use crate::well::carries_lock;
use field_unit::access::FieldOp;
use field_unit::next::{count_accesses, next_access};
use types::refusal::Refusal;

// 27, 31, 24, 30: what start and step check alike.
#[tactic(auto, unfolding(types::specs::Refusals::first_of))]
pub fn check_call(malformed: bool, size: u64, bytes: usize, task: usize) -> Result<(), Refusal>
    ensures { result ≡ first_of (T.call_checks_by malformed size bytes task) }
{
    if 65536 < bytes {
        return Err(Refusal::TooManyBytes);
    }
    if malformed {
        return Err(Refusal::MalformedTable);
    }
    if 3 < task {
        return Err(Refusal::NoSuchTask);
    }
    if bytes as u64 != size {
        return Err(Refusal::RegionLengthDiffers);
    }
    Ok(())
}

// What a start answers for a task that is busy or not, where those have passed: 25, then the field's checks.
#[tactic(auto, unfolding(crate::specs::One::start_task, field_unit::specs::Calls::count, types::specs::Refusals::first_of))]
pub fn start_task(size: u64, busy: bool, op: FieldOp) -> Result<u64, Refusal>
    ensures { result ≡ O.start_task size busy op }
{
    if busy {
        return Err(Refusal::TaskBusy);
    }
    count_accesses(op, size)
}

impl Task {
    // 26, 23: whether it is the task's turn.
    #[tactic(auto, unfolding(types::specs::Refusals::first_of))]
    fn check_turn(self, holder: u64) -> Result<(), Refusal>
        ensures { result ≡ first_of (T.turn_checks_by self holder) }
    {
        if !self.busy {
            return Err(Refusal::TaskIdle);
        }
        if carries_lock(self.op) && self.made == 0 && holder != 4 {
            return Err(Refusal::LockHeld);
        }
        Ok(())
    }

    // The task after an access, its last or not: idle, or with so many made.
    fn after(self, last: bool, made: u64, held: u64) -> Task
        ensures { result ≡ cond last T.idle (record { busy = true; op = self.op; made = made; held = held }) }
    {
        if last {
            return Task::idle();
        }
        Task {
            busy: true,
            op: self.op,
            made,
            held,
        }
    }
}

// The lock after an access.
fn holder_after(op: FieldOp, last: bool, task: usize, holder: u64) -> u64
    ensures { result ≡ T.holder_after (T.carries_lock op) last task holder }
{
    if !carries_lock(op) {
        return holder;
    }
    if last { 4 } else { task as u64 }
}

// What it answers, of a write, or of a read that holds so much.
fn answer_after(last: bool, write: bool, held: u64) -> Step
    ensures { Ok result ≡ T.answer_after last write held }
{
    if !last {
        return Step::More;
    }
    if write { Step::Done } else { Step::Value(held) }
}

// Makes the task's next load or store on the region, and nothing else, where those have passed: 26, 23, and 31 for a task that no table may have.
#[tactic(auto, using(crate::proofs::Answers::step_refused, crate::proofs::Answers::kept_refused, crate::proofs::Answers::step_uncounted, crate::proofs::Answers::kept_uncounted))]
pub fn step_task(
    holder: &mut u64,
    task: usize,
    k: &mut Task,
    region: &mut [u8],
) -> Result<Step, Refusal>
    ensures { ((record { accepted = is_ok result; task = k.new; holder = holder.new; answer = result }) ≡ O.step_task holder.old task k.old region.old) × (region.new ≡ O.step_task_region holder.old k.old region.old) }
{
    k.check_turn(*holder)?;
    let op = k.op;
    let Ok(total) = count_accesses(op, region.len() as u64) else {
        return Err(Refusal::MalformedTable);
    };
    // The count has passed the field, so no refusal comes from the access.
    let Some(held) = next_access(op, k.made, k.held, region)? else {
        return Err(Refusal::MalformedTable);
    };
    let made = k.made + 1;
    let last = made == total;
    *holder = holder_after(op, last, task, *holder);
    *k = k.after(last, made, held);
    Ok(answer_after(last, op.write, held))
}
