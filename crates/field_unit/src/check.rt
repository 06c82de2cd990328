// The checks of a field unit, in document 01's order: 27, 9, 28, 29, 21, 22.
ghost use Rattle.std.specs.Prelude.{◌&&◌, ◌≡◌, ◌≤◌, eqb, IfOk, IfErr};
ghost use Rattle.types.proofs.Widths.{Width};
ghost use Rattle.types.specs.Flags.{access_width};
ghost use Rattle.types.specs.Refusals.{first_of};
ghost use Rattle.field_unit.specs.Checks.{supported, narrow, bad_flags, outside, place_checks, field_checks};

use crate::access::units;
use types::flags::FieldFlags;
use types::refusal::Refusal;
use types::value::{FieldUnit, RegionSpace};

// 9. By the numbers: an enum of flags would be made for its refusal alone.
#[tactic(auto, using(std::proofs::lemmas::Bool::Decides::nat_tests))]
fn bad_flags(flags: FieldFlags, write: bool) -> bool
    ensures { result ≡ bad_flags write flags.0 }
{
    6 <= flags.0 % 16 || write && flags.0 / 32 % 4 == 3
}

// 28
fn is_supported(space: RegionSpace) -> bool
    ensures { result ≡ supported space }
{
    matches!(
        space,
        RegionSpace::SystemMemory | RegionSpace::SystemIo | RegionSpace::PciConfig
    )
}

fn is_narrow(space: RegionSpace) -> bool
    ensures { result ≡ narrow space }
{
    matches!(space, RegionSpace::SystemIo | RegionSpace::PciConfig)
}

// 29
fn is_too_wide(width: u64, space: RegionSpace) -> bool
    ensures { result ≡ (eqb width 64 && narrow space) }
{
    width == 64 && is_narrow(space)
}

// 22. The sum of offset and length is not bounded, so it is formed only where it fits.
// The bounds stay clauses: the checks have them one after another, and a `Checked`, whose facts they become, is what passes them all.
#[tactic(auto, using(crate::proofs::Accepted::last_meets, std::proofs::lemmas::Bool::Decides::nat_tests))]
fn is_outside(width: u64, offset: u64, length: u64, size: u64) -> bool
    requires { (Width width) × (1 ≤ length) × (size ≤ 65536) }
    ensures { result ≡ outside width offset length size }
{
    let bits = 8 * size;
    if bits < length || bits - length < offset {
        return true;
    }
    let last = units(offset + length - 1, width);
    bits < last * width + width
}

// The access width of a field that a read or a write is accepted of, in a region of size bytes.
#[tactic(auto, using(std::proofs::lemmas::Bool::Decides::nat_tests), unfolding(crate::specs::Checks::field_checks, types::specs::Refusals::first_of))]
pub(crate) fn check_width(field: FieldUnit, write: bool, size: u64) -> Result<u64, Refusal>
    ensures ok { IfOk result (λ w. (first_of (field_checks write field size) ≡ Ok tt) × (w ≡ access_width field.flags.0)) }
    ensures err { IfErr result (λ r. first_of (field_checks write field size) ≡ Err r) }
{
    let flags = field.flags;
    let space = field.space;
    if 65536 < size {
        return Err(Refusal::TooManyBytes);
    }
    if bad_flags(flags, write) {
        return Err(Refusal::InvalidFieldFlags);
    }
    if !is_supported(space) {
        return Err(Refusal::UnsupportedRegionSpace);
    }
    let width = flags.access_width();
    if is_too_wide(width, space) {
        return Err(Refusal::QWordAccessInSpace);
    }
    check_place(width, field.offset, field.length, size)?;
    Ok(width)
}

// Whether a read or a write of the field is accepted, in a region of size bytes.
pub fn check_field(field: FieldUnit, write: bool, size: u64) -> Result<(), Refusal>
    ensures { result ≡ first_of (field_checks write field size) }
{
    check_width(field, write, size)?;
    Ok(())
}

// 21, then 22.
#[tactic(auto, using(std::proofs::lemmas::Bool::Decides::nat_tests), unfolding(types::specs::Refusals::first_of))]
fn check_place(width: u64, offset: u64, length: u64, size: u64) -> Result<(), Refusal>
    requires { (Width width) × (size ≤ 65536) }
    ensures { result ≡ first_of (place_checks width offset length size) }
{
    if length == 0 || 64 < length {
        return Err(Refusal::FieldUnitLength);
    }
    if is_outside(width, offset, length, size) {
        return Err(Refusal::FieldUnitOutsideRegion);
    }
    Ok(())
}
