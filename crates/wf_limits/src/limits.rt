//! The limits of a name, and when a hand-out counts.

ghost use Rattle.std.specs.Prelude.{◌≡◌};
ghost use Rattle.wf_limits.specs.Limits.{is_within};

/// How often a name may be handed out.
#[derive(Clone, Copy, Debug)]
pub struct TaskLimits {
    /// How many attempts may be in progress at once. 0 is no limit.
    pub concurrent: u32,
    /// How many hand-outs there may be in a window. 0 is no limit. No more than the last 1,000 hand-outs count,
    /// so a rate above 1,000 limits nothing.
    pub rate: u32,
    /// How long a window is, in seconds.
    pub per: u32,
}

/// Whether a hand-out counts at the moment: it does from its own moment on, while fewer than `per` seconds have
/// passed.
pub(crate) fn counts(hand_out: u64, per: u32, moment: u64) -> bool
    ensures { result ≡ is_within per moment hand_out }
{
    hand_out <= moment && moment - hand_out < 1000 * per as u64
}
