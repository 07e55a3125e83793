//! Workflow definitions from documents.

ghost use Rattle.std.specs.Prelude.{◌≡◌, ◌≢◌, [], IfErr, IfOk, None, OnOk, Some};
ghost use Rattle.wf_defs.specs.Nodes.{all_sites};
ghost use Rattle.wf_defs.specs.FlowRules.{first_fault, flow_rule};
ghost use Rattle.wf_defs.specs.FlowReading as spec;

use crate::faults::{DefFault, tell};
use crate::flow_rules::broken_flow_rule;
use crate::lists::{NodeList, Part};
use crate::node_reading::read_list;
use std::alloc::Global;
use wf_doc::{Doc, Items, NoMemory, Text};
use wf_fields::{is_absent, items_in, number_or, table_in, text_in, truth_or};
use wf_machine::{FlowDef, Node};
use wf_wire::Limits;

/// The workflow definition that the document is, or the first rule that it breaks.
#[tactic(auto, unfolding(crate::specs::FlowRules::flow_rule))]
pub fn read_flowdef(alloc: Global, doc: Doc, limits: &Limits) -> Result<FlowDef, DefFault>
    ensures valid { OnOk result (flow_rule limits.now.nodes doc ≡ None) }
    ensures value { IfOk result (λ def. def ≡ spec.flow_definition limits.now.nodes doc) }
    ensures err { IfErr result (λ fault. fault ≢ DefFault.NoMemory
        → flow_rule limits.now.nodes doc ≡ Some fault) }
{
    tell(alloc, "", broken_flow_rule(&doc))?;
    let nodes = read_nodes(alloc, limits.nodes, &doc)?;
    Ok(flow_definition(alloc, doc, nodes)?)
}

fn read_nodes(alloc: Global, most: u32, doc: &Doc) -> Result<Items<Node>, DefFault>
    ensures valid { OnOk result (first_fault most [] (all_sites most doc.now) ≡ None) }
    ensures value { IfOk result (λ made. made ≡ spec.all_nodes most doc.now) }
    ensures err { IfErr result (λ fault. fault ≢ DefFault.NoMemory
        → first_fault most [] (all_sites most doc.now) ≡ Some fault) }
{
    let mut seen = Items::new(alloc);
    let list = NodeList {
        items: items_in(doc, "tasks"),
        base: "tasks",
        part: Part::Whole,
        looped: false,
    };
    read_list(alloc, most, most, &list, &mut seen)
}

fn flow_definition(alloc: Global, doc: Doc, nodes: Items<Node>) -> Result<FlowDef, NoMemory>
    ensures { IfOk result (λ def. def ≡ spec.definition_with nodes doc) }
{
    let name = Text::new(alloc, text_in(&doc, "name"))?;
    let template = table_in(alloc, &doc, "inputTemplate")?;
    let output = table_in(alloc, &doc, "outputParameters")?;
    Ok(FlowDef {
        name,
        version: number_or(&doc, "version", 1),
        timeout: number_or(&doc, "timeoutSeconds", 0),
        alert_only: text_in(&doc, "timeoutPolicy") == "ALERT_ONLY",
        restartable: truth_or(&doc, "restartable", true),
        template,
        output,
        nodes,
        document: stored(alloc, doc)?,
    })
}

/// The document as it is stored: as it was given, with a version.
fn stored(alloc: Global, doc: Doc) -> Result<Doc, NoMemory>
    ensures { IfOk result (λ made. made ≡ spec.stored doc) }
{
    if is_absent(&doc, "version") {
        with_version(alloc, doc)
    } else {
        Ok(doc)
    }
}

fn with_version(alloc: Global, doc: Doc) -> Result<Doc, NoMemory>
    ensures { IfOk result (λ made. made ≡ spec.with_version doc) }
{
    match doc {
        Doc::Table(mut fields) => {
            fields.set(Text::new(alloc, "version")?, Doc::Int(1))?;
            Ok(Doc::Table(fields))
        }
        other => Ok(other),
    }
}
