// Whole calls: every unit of the field in ascending order.
ghost use Rattle.std.specs.Prelude.{◌≡◌, true, false};
ghost use Rattle.field_unit.specs.Accesses.{whole};
ghost use Rattle.field_unit.specs.Calls.{plan_of, count_of, read_field, write_field, wrote};

use crate::access::{Access, FieldOp};
use crate::checked::Checked;
use types::refusal::Refusal;
use types::value::FieldUnit;

// A read's value and how many loads it took.
#[derive(Clone, Copy)]
pub struct UnitRead {
    pub value: u64,
    pub count: u64,
}

impl Checked {
    // The field's bits, from its units: each is loaded once, ascending, and joined above those before it.
    #[tactic(auto, using(crate::proofs::Kept::unit, crate::proofs::Kept::begins))]
    fn read(self, region: &[u8]) -> u64
        requires { self.op.write ≡ false }
        ensures { result ≡ (whole (plan_of self.op) region.now).held }
    {
        let field = self.op.field;
        let first = self.first();
        let skip = field.offset - first * self.width;
        let mut value = self.fetch(first, region) >> skip;
        let mut have = self.width - skip;
        for u in first + 1..self.last() + 1 {
            value |= self.fetch(u, region) << have;
            have += self.width;
        }
        bits::word::low(value, field.length as usize)
    }

    // Stores each unit, ascending; a partly covered one under Preserve is loaded before. Answers how many loads and stores these are.
    fn write(self, region: &mut [u8]) -> u64
        requires { self.op.write ≡ true }
        ensures { (result ≡ count_of self.op) × (region.new ≡ (whole (plan_of self.op) region.old).region) }
    {
        let first = self.first();
        let last = self.last();
        let mut n = last - first + 1; // a store of each
        for u in first..last + 1 {
            let mut held = 0;
            if self.is_partly(u) {
                held = self.act(Access::Load(u), region, held);
                n += 1;
            }
            self.put(u, region, self.merge(u, held));
        }
        n
    }
}

// The field's value, and how many loads that took.
#[tactic(auto, unfolding(crate::specs::Calls::read_field), using(crate::proofs::Which::read_count))]
pub fn read_field(region: &[u8], field: FieldUnit) -> Result<UnitRead, Refusal>
    ensures { result ≡ read_field region.now field }
{
    let read = FieldOp {
        write: false,
        field,
        value: 0,
    };
    let checked = Checked::new(read, region.len() as u64)?;
    Ok(UnitRead {
        value: checked.read(region),
        count: checked.last() - checked.first() + 1,
    })
}

// Writes the value's lowest bits into the field. Answers how many loads and stores that took; there are at most 11.
#[tactic(auto, unfolding(crate::specs::Calls::write_field))]
pub fn write_field(region: &mut [u8], field: FieldUnit, value: u64) -> Result<u64, Refusal>
    ensures { wrote result region.new ≡ write_field region.old field value }
{
    let write = FieldOp {
        write: true,
        field,
        value,
    };
    let checked = Checked::new(write, region.len() as u64)?;
    Ok(checked.write(region))
}
