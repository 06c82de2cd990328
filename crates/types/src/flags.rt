// A field's flags byte: bits 0 to 3 access type, 4 lock rule, 5 and 6 update rule, 7 ignored. Each part is answered by its own bits.
ghost use Rattle.std.specs.Prelude.{◌≡◌};
ghost use Rattle.types.specs.Flags.{access_type, lock_rule, update_rule, access_width};

use crate::refusal::Refusal;

#[derive(Clone, Copy)]
pub enum FieldAccessType {
    Any,
    Byte,
    Word,
    DWord,
    QWord,
    Buffer,
}

#[derive(Clone, Copy)]
pub enum FieldUpdateRule {
    Preserve,
    WriteAsOnes,
    WriteAsZeros,
}

#[derive(Clone, Copy)]
pub struct FieldFlags(pub u8);

// The access width in bits for each of the sixteen access types; 0 where there is none, as the definition access_width has it.
const WIDTHS: [u8; 16] = [8, 8, 16, 32, 64, 8, 0, 0, 0, 0, 0, 0, 0, 0, 0, 0];

impl FieldFlags {
    pub fn new(value: u8) -> FieldFlags
        ensures { result.0 ≡ value }
    {
        FieldFlags(value)
    }

    #[tactic(auto, unfolding(crate::specs::Flags::access_type))]
    pub fn access_type(self) -> Result<FieldAccessType, Refusal>
        ensures { result ≡ access_type self.0 }
    {
        let access = self.0 % 16;
        match access {
            0 => Ok(FieldAccessType::Any),
            1 => Ok(FieldAccessType::Byte),
            2 => Ok(FieldAccessType::Word),
            3 => Ok(FieldAccessType::DWord),
            4 => Ok(FieldAccessType::QWord),
            5 => Ok(FieldAccessType::Buffer),
            _ => Err(Refusal::InvalidFieldFlags),
        }
    }

    pub fn lock_rule(self) -> bool
        ensures { result ≡ lock_rule self.0 }
    {
        self.0 / 16 % 2 == 1
    }

    #[tactic(auto, unfolding(crate::specs::Flags::update_rule))]
    pub fn field_update_rule(self) -> Result<FieldUpdateRule, Refusal>
        ensures { result ≡ update_rule self.0 }
    {
        let rule = self.0 / 32 % 4;
        match rule {
            0 => Ok(FieldUpdateRule::Preserve),
            1 => Ok(FieldUpdateRule::WriteAsOnes),
            2 => Ok(FieldUpdateRule::WriteAsZeros),
            _ => Err(Refusal::InvalidFieldFlags),
        }
    }

    // The width of an access in bits; 0 for access types 6 to 15, which have none.
    pub fn access_width(self) -> u64
        ensures { result ≡ access_width self.0 }
    {
        let access = (self.0 % 16) as usize;
        u64::from(WIDTHS[access])
    }
}
