//! Which attempt is the last of its node and iteration.

ghost use Rattle.std.specs.Prelude.{◌≡◌};
ghost use Rattle.std.specs.List.{list_any};
ghost use Rattle.wf_machine.specs.Marks.{is_of};
ghost use Rattle.wf_machine.specs.Operators.{is_last};
ghost use Rattle.wf_machine.specs.Sight.{seen};

use wf_flow::Attempt;

/// Whether the attempt is the last of its node and iteration, where the rest come after it.
pub fn is_last(attempt: &Attempt, rest: &[Attempt]) -> bool
    ensures { result ≡ is_last attempt.now rest.now }
{
    !attempt.superseded() && !is_followed(attempt, rest)
}

/// Whether one of the others stands at the node of the attempt, in its iteration.
fn is_followed(attempt: &Attempt, others: &[Attempt]) -> bool
    ensures { result ≡ list_any (λ b. is_of attempt.now.node attempt.now.iteration (seen b)) others.now }
{
    others.iter().any(|other| stands_with(attempt, other))
}

fn stands_with(attempt: &Attempt, other: &Attempt) -> bool
    ensures { result ≡ is_of attempt.now.node attempt.now.iteration (seen other.now) }
{
    other.node() == attempt.node()
        && other.iteration() == attempt.iteration()
        && !other.superseded()
}
