ghost use Rattle.std.specs.Prelude.{◌≡◌, ◌≢◌, length, MatchResult};
ghost use Rattle.record.specs.declared.fault.RecordCause.TheVariants.{Length};

use crate::fault::{RecordCause, RecordFault};

// All the octets, where there are N of them.
pub fn whole<const N: usize>(octets: &[u8]) -> Result<&[u8; N], RecordFault>
    ensures { MatchResult result (λ all. (length octets.now ≡ N) × (all.now ≡ octets.now))
        (λ e. (length octets.now ≢ N) × (e ≡ record { cause = Length; place = 0 })) }
{
    octets.as_array().ok_or(RecordFault {
        cause: RecordCause::Length,
        place: 0,
    })
}
