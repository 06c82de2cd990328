// A host's numbers as values, types and fields. Kinds go by ACPI's numbers (ObjectType; 6.4, 19.6.97) and 17 for a Boolean, which has none of its own.
ghost use Rattle.std.specs.Prelude.{◌≡◌, Some, None};
ghost use Rattle.link.specs.Fields.{field_of};
ghost use Rattle.link.specs.Values.{with_value};

use types::flags::FieldFlags;
use types::value::{AmlValue, FieldUnit, RegionSpace};

// A value: number is an Integer's, and of a Boolean 0 for false, all else true; offset and length are a BufferField's and a FieldUnit's, in bits;
// space and flags a FieldUnit's. A kind looks at its own fields alone. Bytes are lent beside the value.
#[repr(C)]
#[derive(Clone, Copy)]
pub struct HostValue {
    pub kind: u8,
    pub space: u8,
    pub flags: u8,
    pub number: u64,
    pub offset: u64,
    pub length: u64,
}

pub(crate) fn field_of(space: u8, flags: u8, offset: u64, length: u64) -> FieldUnit
    ensures { result ≡ field_of space flags offset length }
{
    FieldUnit {
        space: RegionSpace::from(space),
        flags: FieldFlags(flags),
        offset,
        length,
    }
}

impl HostValue {
    // One look at the kind.
    #[tactic(auto, unfolding(crate::specs::Values::with_value, crate::specs::Values::value_of))]
    pub(crate) fn value(self) -> Option<AmlValue>
        ensures { result ≡ with_value self Some None }
    {
        match self.kind {
            1 => Some(AmlValue::Integer(self.number)),
            2 => Some(AmlValue::String),
            3 => Some(AmlValue::Buffer),
            4 => Some(AmlValue::Package),
            5 => Some(AmlValue::Field(field_of(self.space, self.flags, self.offset, self.length))),
            6 => Some(AmlValue::Device),
            8 => Some(AmlValue::Method),
            9 => Some(AmlValue::Mutex),
            10 => Some(AmlValue::OpRegion),
            11 => Some(AmlValue::PowerResource),
            12 => Some(AmlValue::Processor),
            13 => Some(AmlValue::ThermalZone),
            14 => Some(AmlValue::BufferField {
                offset: self.offset,
                length: self.length,
            }),
            17 => Some(AmlValue::Boolean(self.number != 0)),
            _ => None,
        }
    }
}
