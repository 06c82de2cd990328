// Short operations on a small region, and the premise: which two may be under way together.
ghost use Rattle.std.specs.Prelude.{◌<◌};

use field_unit::access::FieldOp;
use std::fmt;
use types::flags::FieldFlags;
use types::value::{FieldUnit, RegionSpace};

// Where the tasks' fields lie: all on the same bytes, on other bits of one byte, or on bytes of their own.
#[derive(Clone, Copy)]
pub enum Place {
    SameBytes,
    OneByte,
    BytesApart,
}

// Which tasks carry the lock rule.
#[derive(Clone, Copy)]
pub enum Locks {
    Nobody,
    First,
    All,
}

// The schedules with their fields in this place and their lock rule with these tasks.
#[derive(Clone, Copy)]
pub struct Group {
    pub place: Place,
    pub locks: Locks,
}

// An operation at an offset, of a length.
#[derive(Clone, Copy)]
pub enum Shape {
    Read(u64, u64),
    Write(u64, u64),
    WriteAsOnes(u64, u64),
}

// Reads of 8, 12 and 20 bits in 1, 2 and 3 loads; writes of 8, 4 and 12 bits in 1, 2 and 3 loads and stores.
pub(crate) const ON_BYTES: &[Shape] = &[
    Shape::Read(0, 8),
    Shape::Read(4, 12),
    Shape::Read(2, 20),
    Shape::Write(0, 8),
    Shape::Write(2, 4),
    Shape::Write(4, 12),
];

// Those with at most two accesses.
pub(crate) const SHORT_ON_BYTES: &[Shape] = &[
    Shape::Read(0, 8),
    Shape::Read(4, 12),
    Shape::Write(0, 8),
    Shape::Write(2, 4),
];

// On two bits: a read, a write under Preserve, a write as ones.
const ON_BITS: &[Shape] = &[
    Shape::Read(0, 2),
    Shape::Write(0, 2),
    Shape::WriteAsOnes(0, 2),
];

// What each task writes.
const VALUES: [u64; 3] = [0x5a3c9, 0xc69a5, 0x37be1];

impl Place {
    // On bits of one byte there is one list; on whole bytes the given one.
    pub(crate) fn shapes(self, on_bytes: &'static [Shape]) -> &'static [Shape] {
        match self {
            Place::OneByte => ON_BITS,
            Place::SameBytes | Place::BytesApart => on_bytes,
        }
    }

    // How many bits further on each task's field lies.
    fn stride(self) -> u64 {
        match self {
            Place::SameBytes => 0,
            Place::OneByte => 2,
            Place::BytesApart => 32,
        }
    }
}

impl fmt::Display for Place {
    fn fmt<W: fmt::Write>(&self, f: &mut fmt::Formatter<W>) -> fmt::Result {
        f.write_str(match self {
            Place::SameBytes => "same bytes",
            Place::OneByte => "bits of one byte",
            Place::BytesApart => "bytes apart",
        })
    }
}

impl Locks {
    fn carries(self, task: usize) -> bool {
        match self {
            Locks::Nobody => false,
            Locks::First => task == 0,
            Locks::All => true,
        }
    }
}

impl fmt::Display for Locks {
    fn fmt<W: fmt::Write>(&self, f: &mut fmt::Formatter<W>) -> fmt::Result {
        f.write_str(match self {
            Locks::Nobody => "no lock rule",
            Locks::First => "lock rule of the first",
            Locks::All => "lock rule of all",
        })
    }
}

impl Group {
    // The task's operation of this shape. Its flags are a byte: Byte access, the lock rule's bit, the update rule's two.
    pub(crate) fn operation(self, shape: Shape, task: usize) -> FieldOp
        requires { task < 3 }
    {
        let (write, rule, offset, length) = match shape {
            Shape::Read(offset, length) => (false, 0, offset, length),
            Shape::Write(offset, length) => (true, 0, offset, length),
            Shape::WriteAsOnes(offset, length) => (true, 1, offset, length),
        };
        let lock = u8::from(self.locks.carries(task));
        let further = self.place.stride().wrapping_mul(task as u64);
        FieldOp {
            write,
            field: FieldUnit {
                space: RegionSpace::SystemMemory,
                flags: FieldFlags::new(1 | (lock << 4) | (rule << 5)),
                offset: offset.wrapping_add(further),
                length,
            },
            value: VALUES[task],
        }
    }
}

impl fmt::Display for Group {
    fn fmt<W: fmt::Write>(&self, f: &mut fmt::Formatter<W>) -> fmt::Result {
        let Group { place, locks } = *self;
        write!(f, "{place}, {locks}")
    }
}

// The bit at which the unit that holds this bit begins.
fn unit_start(bit: u64, width: u64) -> u64 {
    if width == 0 {
        return bit;
    }
    bit - bit % width
}

// Whether a unit that the one touches begins before the other's last unit ends.
fn begins_before_end(a: FieldOp, b: FieldOp) -> bool {
    let last_bit = b.field.offset.wrapping_add(b.field.length).wrapping_sub(1);
    let width = b.field.flags.access_width();
    let end = unit_start(last_bit, width).wrapping_add(width);
    unit_start(a.field.offset, a.field.flags.access_width()) < end
}

// "any two operations under way together that touch a common byte, one of them writing, both carry the lock rule"
pub(crate) fn may_be_together(a: FieldOp, b: FieldOp) -> bool {
    (!a.write && !b.write)
        || !begins_before_end(a, b)
        || !begins_before_end(b, a)
        || (a.field.flags.lock_rule() && b.field.flags.lock_rule())
}
