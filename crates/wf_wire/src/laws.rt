//! What follows from the definitions alone.

ghost use Rattle.std.specs.Prelude.{◌≡◌, ℕ, List, ◌++◌};
ghost use Rattle.wf_wire.specs.declared.inbox.Next.{Next};
ghost use Rattle.wf_wire.specs.declared.limits.Limits.{Limits};
ghost use Rattle.wf_wire.specs.Request.{Request};
ghost use Rattle.wf_wire.specs.Items.{IsItems, Leads};

/// An input has at most one list of messages, and one end.
pub fn items_are_unique()
    ensures { (limits : Limits) (input : List ℕ) (ms ns : List Request) (end end' : Next)
        → IsItems limits input ms end → IsItems limits input ns end' → (ms ≡ ns) × (end ≡ end') }
{}

/// Messages that were read, however far, are the first of the input.
pub fn read_messages_are_first()
    ensures { (limits : Limits) (input q : List ℕ) (ns ms : List Request) (o : ℕ) (end : Next)
        → IsItems limits input ms end → Leads limits 0 input ns o q → (rest : List Request) × (ms ≡ ns ++ rest) }
{}
