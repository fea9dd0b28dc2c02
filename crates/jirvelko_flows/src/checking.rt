//! `jirvelko check`: whether bytes are a definition, or why they are refused.

use crate::texts::show_place;
use commands::{files, showing};
use flows::flow::Flow;
use flows::refusal::DefinitionRefusal;
use layout::Draft;
use rules::RuleRefusal;
use std::io;

pub fn show_file(rt: &HostRuntime, file: &str) -> anyhow::Result<()> {
    let mut flow = Flow::fresh();
    if load(rt, file, &mut flow)?.is_some() {
        println!(rt; "{file}")?;
        show_flow(rt, &flow)?;
    }
    Ok(())
}

/// Reads the flow in a file; where it is refused, that is shown, with the place of a text's fault under the text.
// The flow is lent, since one that is handed out by value is copied at each step, and reading takes 1.7 times as long.
pub fn load(rt: &HostRuntime, file: &str, flow: &mut Flow) -> anyhow::Result<Option<()>> {
    let bytes = files::read(rt, file)?;
    let read = flow.read(&bytes);
    let accepted = showing::accepted(rt, file, read)?;
    if let Err(DefinitionRefusal::Rule(RuleRefusal::BadText(number, fault))) = read
        && let Ok(draft) = Draft::read(&bytes)
        && let Some(text) = draft.text(number as usize)
    {
        show_place(rt, text.as_bytes(), fault as usize)?;
    }
    Ok(accepted)
}

fn show_flow(rt: &HostRuntime, flow: &Flow) -> io::Result<()> {
    let activities = flow.activity_count();
    let links = flow.link_count();
    let connectors = flow.connector_count();
    let texts = flow.text_count();
    println!(rt;
        "accepted: {activities} activities, {links} links, {connectors} connectors, {texts} texts"
    )?;
    print!(rt; "by rank:")?;
    for activity in flow.by_rank() {
        print!(rt; " {activity}")?;
    }
    println!(rt)
}
