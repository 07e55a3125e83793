//! The moments that requests state.

ghost use Rattle.std.specs.Prelude.{◌≡◌, ◌∷◌, [], IfOk, IfErr, true, false};
ghost use Rattle.wf_rest.specs.Moments as spec;

use crate::faulting::HttpFault;
use crate::numbers::{are_digits, capped_value};
use wf_wire::{FieldLook, Message};

/// The last moment that there is, in milliseconds.
const LAST_MOMENT: u64 = 9_007_199_254_740_991;

/// The moment that a request states by its one field Moment-Ms, in milliseconds. It takes no memory: the one fault is
/// BadMoment, where the field is repeated or isn't a moment.
pub fn moment_of(message: &Message) -> Result<Option<u64>, HttpFault>
    ensures ok { IfOk result (λ moment. (moment ≡ spec.stated_moment message.now) × (spec.has_bad_moment message.now ≡ false)) }
    ensures err { IfErr result (λ fault. (fault ≡ HttpFault.BadMoment) × (spec.has_bad_moment message.now ≡ true)) }
{
    match message.field("moment-ms") {
        FieldLook::Absent => Ok(None),
        FieldLook::One(value) => match read_moment(value) {
            Some(moment) => Ok(Some(moment)),
            None => Err(HttpFault::BadMoment),
        },
        FieldLook::Many => Err(HttpFault::BadMoment),
    }
}

/// 1 to 16 digits, of at most the last moment.
fn read_moment(value: &[u8]) -> Option<u64>
    ensures { result ≡ spec.moment_in (value.now ∷ []) }
{
    if value.is_empty() || value.len() > 16 || !are_digits(value) {
        return None;
    }
    let moment = capped_value(value);
    if moment <= LAST_MOMENT {
        Some(moment)
    } else {
        None
    }
}
