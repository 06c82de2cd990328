// Values. A String's and a Buffer's bytes, a BufferField's buffer and a FieldUnit's region are lent beside the value as a slice.
ghost use Rattle.std.specs.Prelude.{◌≡◌};
ghost use Rattle.types.specs.Values.{type_of, type_number_of, type_at};
ghost use Rattle.types.specs.Spaces.{space_of, space_number};

use crate::flags::FieldFlags;

// ACPI's address spaces.
#[derive(Clone, Copy)]
pub enum RegionSpace {
    SystemMemory,
    SystemIo,
    PciConfig,
    EmbeddedControl,
    SMBus,
    SystemCmos,
    PciBarTarget,
    IPMI,
    GeneralPurposeIo,
    GenericSerialBus,
    OemDefined(u8),
}

#[derive(Clone, Copy, PartialEq, Eq)]
pub enum AmlType {
    Buffer = 3,
    BufferField = 14,
    FieldUnit = 5,
    Device = 6,
    Integer = 1,
    Method = 8,
    Mutex = 9,
    OpRegion = 10,
    Package = 4,
    PowerResource = 11,
    Processor = 12,
    String = 2,
    ThermalZone = 13,
}

// A field of a region: offset and length in bits.
#[derive(Clone, Copy)]
pub struct FieldUnit {
    pub space: RegionSpace,
    pub flags: FieldFlags,
    pub offset: u64,
    pub length: u64,
}

#[derive(Clone, Copy)]
pub enum AmlValue {
    Boolean(bool),
    Integer(u64),
    String,
    Buffer,
    BufferField { offset: u64, length: u64 },
    Field(FieldUnit),
    OpRegion,
    Device,
    Method,
    Processor,
    Mutex,
    Package,
    PowerResource,
    ThermalZone,
}

// A Boolean's type is Integer.
pub fn type_of(value: AmlValue) -> AmlType
    ensures { result ≡ type_of value }
{
    match value {
        AmlValue::Boolean(_) => AmlType::Integer,
        AmlValue::Integer(_) => AmlType::Integer,
        AmlValue::String => AmlType::String,
        AmlValue::Buffer => AmlType::Buffer,
        AmlValue::BufferField {
            offset: _,
            length: _,
        } => AmlType::BufferField,
        AmlValue::Field(_) => AmlType::FieldUnit,
        AmlValue::OpRegion => AmlType::OpRegion,
        AmlValue::Device => AmlType::Device,
        AmlValue::Method => AmlType::Method,
        AmlValue::Processor => AmlType::Processor,
        AmlValue::Mutex => AmlType::Mutex,
        AmlValue::Package => AmlType::Package,
        AmlValue::PowerResource => AmlType::PowerResource,
        AmlValue::ThermalZone => AmlType::ThermalZone,
    }
}

// ACPI's number of a type, as ObjectType gives it (6.4, 19.6.97).
impl From<AmlType> for u8 {
    ghost from_gives = { λ t n. n ≡ type_number_of t };

    fn from(t: AmlType) -> u8 {
        t as u8
    }
}

// A number that is no type's.
#[derive(Clone, Copy)]
pub struct NoType(pub u8);

impl TryFrom<u8> for AmlType {
    type Error = NoType;

    ghost try_from_gives = { λ n t. t ≡ type_at n };

    #[tactic(auto, unfolding(crate::specs::Values::type_named))]
    fn try_from(number: u8) -> Result<AmlType, NoType> {
        match number {
            1 => Ok(AmlType::Integer),
            2 => Ok(AmlType::String),
            3 => Ok(AmlType::Buffer),
            4 => Ok(AmlType::Package),
            5 => Ok(AmlType::FieldUnit),
            6 => Ok(AmlType::Device),
            8 => Ok(AmlType::Method),
            9 => Ok(AmlType::Mutex),
            10 => Ok(AmlType::OpRegion),
            11 => Ok(AmlType::PowerResource),
            12 => Ok(AmlType::Processor),
            13 => Ok(AmlType::ThermalZone),
            14 => Ok(AmlType::BufferField),
            _ => Err(NoType(number)),
        }
    }
}

// The space of ACPI's number (6.4, 19.6.100).
impl From<u8> for RegionSpace {
    ghost from_gives = { λ n s. s ≡ space_of n };

    #[tactic(auto, unfolding(crate::specs::Spaces::space_of))]
    fn from(number: u8) -> RegionSpace {
        match number {
            0 => RegionSpace::SystemMemory,
            1 => RegionSpace::SystemIo,
            2 => RegionSpace::PciConfig,
            3 => RegionSpace::EmbeddedControl,
            4 => RegionSpace::SMBus,
            5 => RegionSpace::SystemCmos,
            6 => RegionSpace::PciBarTarget,
            7 => RegionSpace::IPMI,
            8 => RegionSpace::GeneralPurposeIo,
            9 => RegionSpace::GenericSerialBus,
            _ => RegionSpace::OemDefined(number),
        }
    }
}

impl From<RegionSpace> for u8 {
    ghost from_gives = { λ s n. n ≡ space_number s };

    fn from(space: RegionSpace) -> u8 {
        match space {
            RegionSpace::SystemMemory => 0,
            RegionSpace::SystemIo => 1,
            RegionSpace::PciConfig => 2,
            RegionSpace::EmbeddedControl => 3,
            RegionSpace::SMBus => 4,
            RegionSpace::SystemCmos => 5,
            RegionSpace::PciBarTarget => 6,
            RegionSpace::IPMI => 7,
            RegionSpace::GeneralPurposeIo => 8,
            RegionSpace::GenericSerialBus => 9,
            RegionSpace::OemDefined(number) => number,
        }
    }
}
