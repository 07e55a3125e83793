//! A SWITCH is scheduled.

ghost use Rattle.std.specs.Prelude.{◌≡◌, [], ◌∷◌, IfOk};
ghost use Rattle.wf_doc.specs.Doc.{field};
ghost use Rattle.wf_doc.specs.declared.doc.Doc.TheVariants.{List as Listed};
ghost use Rattle.wf_expr.specs.Filling.{text_of_any};
ghost use Rattle.wf_rules.specs.Outputs.{choice_output};
ghost use Rattle.wf_rules.specs.Scheduling as spec;
ghost use Rattle.wf_rules.specs.declared.acting.Begin.TheVariants.{Over as IsOver};
ghost use Rattle.wf_rules.specs.declared.acting.Outcome.TheVariants.{Completed as IsCompleted};

use crate::starts::Start;
use crate::texts::{table_of, text_at};
use std::alloc::Global;
use wf_doc::{Doc, Items, Text};
use wf_rules::{Begin, NewAttempt, Outcome};
use wf_setting::NoMemory;

/// An attempt that is over as it is made, with the text of that parameter as what was chosen.
pub fn choose(alloc: Global, param: &str, start: Start) -> Result<NewAttempt, NoMemory>
    ensures { IfOk result (λ made. made
        ≡ record (spec.attempt_at start.entry.node.now start.entry.iteration (IsOver IsCompleted) start.entry.input) {
          output = choice_output (text_of_any (field param.now start.entry.input));
        }) }
{
    let text = text_at(alloc, param, &start.input)?;
    let output = choice_output(alloc, text)?;
    let begun = start.begin(alloc, Begin::Over(Outcome::Completed));
    Ok(NewAttempt { output, ..begun })
}

fn choice_output(alloc: Global, text: Text) -> Result<Doc, NoMemory>
    ensures { IfOk result (λ output. output ≡ choice_output text) }
{
    let results = list_of(alloc, Doc::Text(text))?;
    table_of(alloc, "evaluationResult", results)
}

/// The list of that one item.
fn list_of(alloc: Global, item: Doc) -> Result<Doc, NoMemory>
    ensures { IfOk result (λ list. list ≡ Listed (item ∷ [])) }
{
    let mut items = Items::new(alloc);
    items.push(item)?;
    Ok(Doc::List(items))
}
