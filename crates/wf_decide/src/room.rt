//! What the numbers and the count of kept flows allow.

use std::marker::Model;

/// What the numbers and the count of kept flows allow.
#[derive(Drop)]
pub struct Room {
    /// No number is left for an attempt.
    pub spent: bool,
    /// The store has no place for a flow.
    pub full: bool,
    /// No number is left for a flow.
    pub unnumbered: bool,
}

impl Model for Room {
    ghost use Rattle.wf_rules.specs.Rules as rules;

    ghost Value = { rules.Room };

    ghost view = { λ r. record { spent = r.spent; full = r.full; unnumbered = r.unnumbered } };
}
