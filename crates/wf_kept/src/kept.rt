//! Flows as the core keeps them.

ghost use Rattle.std.specs.Prelude.{◌≡◌, ◌<◌, length, slice_get, slice_set, IfSome};

use crate::roomy::Roomy;
use wf_flow::Flow;

/// A flow, and the place of the last entry that changed it.
#[derive(Drop)]
pub struct KeptFlow {
    pub flow: Flow,
    pub revision: u64,
}

impl Roomy<KeptFlow> {
    /// The flow at that place was changed by the entry at that place of the history.
    pub(crate) fn revise(&mut self, at: usize, revision: u64)
        requires { at < length self.old.items }
        ensures items { IfSome (slice_get self.old.items at) (λ k. self.new.items ≡ slice_set self.old.items at (record k { revision = revision })) }
        ensures room { self.new.spare ≡ self.old.spare }
    {
        self.items[at].revision = revision;
    }
}
