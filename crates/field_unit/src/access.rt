// What is asked for: an operation on a field unit, and one access of it, a load or a store of one whole unit.
ghost use Rattle.std.specs.Prelude.{◌≡◌, ◌/◌};
ghost use Rattle.types.proofs.Widths.{Width};

use types::value::FieldUnit;

// A read of a field, or a write of a value into it. A flag and no enum: a read keeps its value too (`numbers_of_task`, link/specs/Tables).
#[derive(Clone, Copy)]
pub struct FieldOp {
    pub write: bool,
    pub field: FieldUnit,
    pub value: u64,
}

// A load or a store of the unit of this number.
#[derive(Clone, Copy)]
pub enum Access {
    Load(u64),
    Store(u64),
}

// x div width. A width is a power of two, so it is a shift.
#[tactic(auto, using(crate::proofs::Parts::width_shift, crate::proofs::Parts::width_shift_small))]
pub(crate) fn units(x: u64, width: u64) -> u64
    requires { Width width }
    ensures { result ≡ x / width }
{
    x >> width.trailing_zeros()
}
