// Malformed tables: a region length over 65,536, a busy task that no start would have accepted or that is past its end, a wrong holder.
ghost use Rattle.std.specs.Prelude.{◌≡◌};
ghost use Rattle.task.specs.Tasks as T;

use crate::table::{Table, Task};
use field_unit::access::FieldOp;
use field_unit::next::count_accesses;

pub(crate) fn carries_lock(op: FieldOp) -> bool
    ensures { result ≡ T.carries_lock op }
{
    op.field.flags.lock_rule()
}

impl Task {
    // A busy lock-rule task with an access made.
    fn locks(self) -> bool
        ensures { result ≡ T.locks self }
    {
        self.busy && carries_lock(self.op) && 0 < self.made
    }

    // A busy task whose field fails the start checks, or whose accesses made reach its total.
    #[tactic(auto, using(crate::proofs::Malformed::bad_made, crate::proofs::Malformed::bad_field))]
    fn is_bad(self, size: u64) -> bool
        ensures { result ≡ T.bad_task size self }
    {
        if !self.busy {
            return false;
        }
        match count_accesses(self.op, size) {
            Ok(n) => n <= self.made,
            Err(_) => true,
        }
    }
}

// Does the holder differ from the one task of the four that has the lock?
fn is_wrong_holder(a: bool, b: bool, c: bool, d: bool, holder: u64) -> bool
    ensures { result ≡ T.wrong_holder (T.numbers_of a b c d) holder }
{
    match (a, b, c, d) {
        (true, false, false, false) => holder != 0,
        (false, true, false, false) => holder != 1,
        (false, false, true, false) => holder != 2,
        (false, false, false, true) => holder != 3,
        (false, false, false, false) => holder != 4,
        _ => true,
    }
}

// Whether a table of this region length, this holder and these tasks is malformed. They come one by one, since the C side (link) keeps them in another form.
pub fn malformed_by(size: u64, holder: u64, a: Task, b: Task, c: Task, d: Task) -> bool
    ensures { result ≡ T.malformed_by size holder a b c d }
{
    65536 < size
        || a.is_bad(size)
        || b.is_bad(size)
        || c.is_bad(size)
        || d.is_bad(size)
        || is_wrong_holder(a.locks(), b.locks(), c.locks(), d.locks(), holder)
}

impl Table {
    #[tactic(auto, unfolding(crate::specs::Tasks::malformed))]
    pub fn is_malformed(self) -> bool
        ensures { result ≡ T.malformed self }
    {
        let [a, b, c, d] = self.tasks;
        malformed_by(self.size, self.holder, a, b, c, d)
    }
}
