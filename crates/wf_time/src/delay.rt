//! How long a retry waits.

ghost use Rattle.std.specs.Prelude.{◌≡◌};
ghost use Rattle.wf_time.specs.Delay.{retry_delay};

use wf_machine::{RetryLogic, Timing};

/// The longest delay, in seconds.
const LONGEST: u64 = 2_147_483_647;

/// The seconds that a retry waits after an attempt whose own retry count is `retry`.
pub fn retry_delay(timing: &Timing, retry: u32) -> u64
    ensures { result ≡ retry_delay timing.now retry }
{
    let delay = timing.delay as u64;
    match timing.logic {
        RetryLogic::Fixed => delay.min(LONGEST),
        RetryLogic::Linear => {
            let scaled = delay * timing.scale as u64;
            scaled.saturating_mul(retry as u64 + 1).min(LONGEST)
        }
        RetryLogic::Exponential => {
            let doubled = delay * 2u64.pow(retry.min(31));
            doubled.min(LONGEST)
        }
    }
}
