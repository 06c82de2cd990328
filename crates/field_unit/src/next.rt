// The next single access of an operation, found by how many were made: only the first and the last unit can take two.
ghost use Rattle.std.specs.Prelude.{◌≡◌, ◌<◌};
ghost use Rattle.field_unit.specs.Calls.{count_of, access_at, count, next_access, stepped};

use crate::access::{Access, FieldOp};
use crate::checked::Checked;
use types::refusal::Refusal;

impl Checked {
    // How many loads and stores the operation makes.
    fn count(self) -> u64
        ensures { result ≡ count_of self.op }
    {
        let first = self.first();
        let last = self.last();
        let n = last - first + 1 + u64::from(self.is_partly(first));
        if first == last {
            return n;
        }
        n + u64::from(self.is_partly(last))
    }

    // Access k: those before the last unit stand one behind the other, a second access at the first unit moves them up by one.
    fn access_at(self, k: u64) -> Access
        requires { k < count_of self.op }
        ensures { result ≡ access_at self.op k }
    {
        let first = self.first();
        let last = self.last();
        if !self.op.write {
            return Access::Load(first + k);
        }
        let lead = u64::from(self.is_partly(first));
        if k < lead {
            return Access::Load(first);
        }
        let u = first + (k - lead);
        if last < u {
            return Access::Store(last);
        }
        if u == last && first < last && self.is_partly(last) {
            return Access::Load(last);
        }
        Access::Store(u)
    }
}

// How many loads and stores the operation makes on a region of size bytes.
#[tactic(auto, unfolding(crate::specs::Calls::count))]
pub fn count_accesses(op: FieldOp, size: u64) -> Result<u64, Refusal>
    ensures { result ≡ count op size }
{
    let checked = Checked::new(op, size)?;
    Ok(checked.count())
}

// Makes access made of the operation, counted from 0, with what the loads before it hold. What is held after it; None where there is none left.
#[tactic(auto, unfolding(crate::specs::Calls::next_access), using(crate::proofs::Which::unit_of_lem))]
pub fn next_access(
    op: FieldOp,
    made: u64,
    held: u64,
    region: &mut [u8],
) -> Result<Option<u64>, Refusal>
    ensures { stepped result region.new ≡ next_access region.old op made held }
{
    let checked = Checked::new(op, region.len() as u64)?;
    if checked.count() <= made {
        return Ok(None);
    }
    let a = checked.access_at(made);
    Ok(Some(checked.act(a, region, held)))
}
