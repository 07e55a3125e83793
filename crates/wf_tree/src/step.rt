//! What a node asks for, by its mark and by what its lists ask for.

ghost use Rattle.std.specs.Prelude.{◌≡◌};
ghost use Rattle.std.specs.Option.{option_copied, option_map};
ghost use Rattle.wf_machine.specs.Marks.{beside as next_beside, case_text as text_of_case, choice_of, is_chosen, join_next, mark_of, or_then, plain_next, turn_of};
ghost use Rattle.wf_machine.specs.Sight.{seen};

use wf_doc::{Doc, Text};
use wf_flow::Attempt;
use wf_machine::{Mark, Next};

/// The mark that its last attempt gives a node.
pub fn mark_by(last: Option<&Attempt>) -> Mark
    ensures { result ≡ mark_of (option_map seen (option_copied last.entry)) }
{
    match last {
        None => Mark::Fresh,
        Some(attempt) => {
            let status = attempt.status();
            if status.is_open() {
                Mark::Open
            } else if status.is_successful() {
                Mark::Done
            } else {
                Mark::Lost
            }
        }
    }
}

/// The turn that a loop's last attempt is in, 0 where it has none.
pub fn turn_by(last: Option<&Attempt>) -> u32
    ensures { result ≡ turn_of (option_map seen (option_copied last.entry)) }
{
    match last {
        None => 0,
        Some(attempt) => attempt.turn(),
    }
}

/// The text that a SWITCH's last attempt chose by.
pub fn choice_by<'a>(last: Option<&'a Attempt>) -> Option<&'a Text>
    ensures { option_copied result ≡ choice_of (option_map seen (option_copied last.entry)) }
{
    case_text(last?.output())
}

fn case_text(output: &Doc) -> Option<&Text>
    ensures { option_copied result ≡ text_of_case output.now }
{
    output
        .field("evaluationResult")?
        .as_list()?
        .as_slice()
        .first()?
        .as_text()
}

/// Whether a case's key is the text that was chosen by.
pub fn is_key(choice: Option<&Text>, key: &Text) -> bool
    ensures { result ≡ is_chosen (option_copied choice.entry) key.now }
{
    match choice {
        None => false,
        Some(text) => key.as_str() == text.as_str(),
    }
}

/// The first of two that asks for something.
pub fn first_of(step: Next, rest: Next) -> Next
    ensures { result ≡ or_then step rest }
{
    match step {
        Next::Done => rest,
        _ => step,
    }
}

/// What two lists ask for that run beside one another: one that waits doesn't hold the other up.
pub fn beside(step: Next, rest: Next) -> Next
    ensures { result ≡ next_beside step rest }
{
    match step {
        Next::Done => rest,
        Next::Waits => first_of(rest, Next::Waits),
        _ => step,
    }
}

/// What a node without lists asks for. One whose last attempt is open, or lost, waits.
pub fn plain(index: u32, iteration: u32, mark: Mark) -> Next
    ensures { result ≡ plain_next index iteration mark }
{
    match mark {
        Mark::Fresh => Next::Schedule(index, iteration),
        Mark::Open => Next::Waits,
        Mark::Done => Next::Done,
        Mark::Lost => Next::Waits,
    }
}

/// What a JOIN asks for, where the branches before it ask for that.
pub fn joined(index: u32, iteration: u32, mark: Mark, branches: Next) -> Next
    ensures { result ≡ join_next index iteration mark branches }
{
    match mark {
        Mark::Open => first_of(branches, Next::Join(index, iteration)),
        _ => plain(index, iteration, mark),
    }
}
