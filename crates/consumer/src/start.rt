ghost use Rattle.std.specs.Prelude.{◌^◌, ◌<◌, ◌≤◌};

// The monitoring number of the first request: none is below 256.
#[derive(Clone, Copy)]
pub struct StartNumber {
    pub(crate) value: u32,
    ghost low: { 256 ≤ value },
    ghost high: { value < 2 ^ 32 },
}
