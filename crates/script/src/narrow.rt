ghost use Rattle.std.specs.Prelude.{◌≡◌, ◌≤◌};
ghost use Rattle.script.specs.Numbers.{settings_of};

use message::making::Settings;
use message::parameters::BaseId;

// The settings as a line writes them, with numbers that may be too wide for their fields.
#[derive(Clone, Copy)]
pub struct WideSettings {
    pub consumer_id: u32,
    pub provider_id: u32,
    pub base_id: BaseId,
    pub level: u64,
    pub timeout: u64,
    pub interval: u64,
    pub operator_ack_necessary: bool,
}

// A level, timeout or interval within the limits is kept, and one that is too wide for its field counts as the widest,
// which is past the limits.
impl From<WideSettings> for Settings {
    ghost from_gives = { λ wide settings. settings ≡ settings_of wide };

    fn from(wide: WideSettings) -> Settings
        ensures made { result ≡ settings_of wide }
        ensures level { result.level ≤ 4 → result.level ≡ wide.level }
        ensures timeout { result.timeout ≤ 3600000 → result.timeout ≡ wide.timeout }
        ensures interval { result.error_interval ≤ 600 → result.error_interval ≡ wide.interval }
    {
        Settings {
            consumer_id: wide.consumer_id,
            provider_id: wide.provider_id,
            base_id: wide.base_id,
            level: u8::try_from(wide.level).unwrap_or(u8::MAX),
            timeout: u32::try_from(wide.timeout).unwrap_or(u32::MAX),
            error_interval: u16::try_from(wide.interval).unwrap_or(u16::MAX),
            operator_ack_necessary: wide.operator_ack_necessary,
        }
    }
}
