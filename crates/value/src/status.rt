// The value of a _STA method.
ghost use Rattle.std.specs.Prelude.{◌≡◌};
ghost use Rattle.value.specs.Status.{as_status, default_status, status_number};

use types::refusal::Refusal;
use types::value::AmlValue;

#[derive(Clone, Copy)]
pub struct StatusObject {
    pub present: bool,
    pub enabled: bool,
    pub show_in_ui: bool,
    pub functional: bool,
    pub battery_present: bool,
}

// The Integer that as_status takes it from.
impl From<StatusObject> for u64 {
    ghost from_gives = { λ s n. n ≡ status_number s };

    fn from(s: StatusObject) -> u64 {
        u64::from(s.present)
            + 2 * u64::from(s.enabled)
            + 4 * u64::from(s.show_in_ui)
            + 8 * u64::from(s.functional)
            + 16 * u64::from(s.battery_present)
    }
}

// Bits 0 to 4 of an Integer.
pub fn as_status(value: AmlValue, bytes: &[u8]) -> Result<StatusObject, Refusal>
    ensures { result ≡ as_status value bytes.now }
{
    if 65536 < bytes.len() {
        return Err(Refusal::TooManyBytes);
    }
    let AmlValue::Integer(n) = value else {
        return Err(Refusal::InvalidStatusObject);
    };
    if 32 <= n {
        return Err(Refusal::InvalidStatusObject);
    }
    Ok(StatusObject {
        present: n % 2 == 1,
        enabled: n / 2 % 2 == 1,
        show_in_ui: n / 4 % 2 == 1,
        functional: n / 8 % 2 == 1,
        battery_present: n / 16 % 2 == 1,
    })
}

// The status of a device that has none.
pub fn default_status() -> StatusObject
    ensures { result ≡ default_status }
{
    StatusObject {
        present: true,
        enabled: true,
        show_in_ui: true,
        functional: true,
        battery_present: true,
    }
}
