ghost use Rattle.std.specs.Prelude.{◌≡◌, ◌*◌, ◌/◌};
ghost use Rattle.draw.specs.Draws.{reading};

use record::meter::Meter;

// 40 litres a minute, and one pulse a millilitre: two pulses in three milliseconds.
pub fn pulses_at(time: u32) -> u64
    ensures { result ≡ time * 2 / 3 }
{
    u64::from(time) * 2 / 3
}

// What the meter tells at this time after the nozzle opened.
pub fn reading_at(time: u32) -> Meter
    ensures { result ≡ reading time }
{
    Meter {
        pulses: u32::try_from(pulses_at(time)).unwrap_or(u32::MAX),
        centidegrees: 1510,
        valid: true,
    }
}
