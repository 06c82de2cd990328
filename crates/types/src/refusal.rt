// Refusals: each case is one line of document 01's table, with the types it carries.
ghost use Rattle.std.specs.Prelude.{◌≡◌};
ghost use Rattle.types.specs.Refusals.{number_of, types_of};

use crate::value::AmlType;

#[derive(Clone, Copy)]
pub enum Refusal {
    IncompatibleValueConversion { current: AmlType, target: AmlType },
    BufferFieldIndexesOutOfBounds,
    TypeCannotBeWrittenToBufferField(AmlType),
    TypeCannotBeCompared(AmlType),
    TypeCannotBeSliced(AmlType),
    ResourceDescriptorTooShort,
    InvalidShiftLeft,
    InvalidShiftRight,
    InvalidFieldFlags,
    InvalidStatusObject,
    MalformedBuffer,
    OutputTooShort,
    FieldUnitLength,
    FieldUnitOutsideRegion,
    LockHeld,
    NoSuchTask,
    TaskBusy,
    TaskIdle,
    TooManyBytes,
    UnsupportedRegionSpace,
    QWordAccessInSpace,
    RegionLengthDiffers,
    MalformedTable,
    MalformedJob,
}

// The types that a refusal carries.
#[derive(Clone, Copy)]
pub enum Types {
    Nothing,
    Met(AmlType),
    Conversion { current: AmlType, target: AmlType },
}

// Document 01's number of a refusal.
impl From<Refusal> for u8 {
    ghost from_gives = { λ r n. n ≡ number_of r };

    fn from(r: Refusal) -> u8 {
        match r {
            Refusal::IncompatibleValueConversion {
                current: _,
                target: _,
            } => 1,
            Refusal::BufferFieldIndexesOutOfBounds => 2,
            Refusal::TypeCannotBeWrittenToBufferField(_) => 3,
            Refusal::TypeCannotBeCompared(_) => 4,
            Refusal::TypeCannotBeSliced(_) => 5,
            Refusal::ResourceDescriptorTooShort => 6,
            Refusal::InvalidShiftLeft => 7,
            Refusal::InvalidShiftRight => 8,
            Refusal::InvalidFieldFlags => 9,
            Refusal::InvalidStatusObject => 10,
            Refusal::MalformedBuffer => 11,
            Refusal::OutputTooShort => 20,
            Refusal::FieldUnitLength => 21,
            Refusal::FieldUnitOutsideRegion => 22,
            Refusal::LockHeld => 23,
            Refusal::NoSuchTask => 24,
            Refusal::TaskBusy => 25,
            Refusal::TaskIdle => 26,
            Refusal::TooManyBytes => 27,
            Refusal::UnsupportedRegionSpace => 28,
            Refusal::QWordAccessInSpace => 29,
            Refusal::RegionLengthDiffers => 30,
            Refusal::MalformedTable => 31,
            Refusal::MalformedJob => 40,
        }
    }
}

// 1 carries the present and the wanted type; 3, 4 and 5 the type met.
#[tactic(auto, using(crate::proofs::Carried::carries_nothing))]
pub fn types_of(r: Refusal) -> Types
    ensures { result ≡ types_of r }
{
    match r {
        Refusal::IncompatibleValueConversion { current, target } => Types::Conversion {
            current,
            target,
        },
        Refusal::TypeCannotBeWrittenToBufferField(t) => Types::Met(t),
        Refusal::TypeCannotBeCompared(t) => Types::Met(t),
        Refusal::TypeCannotBeSliced(t) => Types::Met(t),
        _ => Types::Nothing,
    }
}
