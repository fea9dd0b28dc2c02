//! `jirvelko evaluate`: what a flow comes to on a case, with a rule table as the partner.

use crate::{asking, checking};
use anyhow::anyhow;
use commands::cases;
use evaluation::evaluated::Evaluated;
use evaluation::evaluating::evaluate;
use evaluation_laws::Outcome;
use flows::flow::Flow;
use std::io;
use tables::table::RuleTable;

pub fn show_sample(rt: &HostRuntime) -> anyhow::Result<()> {
    println!(rt; "what the loan comes to")?;
    show_files(
        rt,
        "samples/loan.flow",
        "samples/loan.table",
        "samples/loan.case",
    )
}

pub fn show(rt: &HostRuntime, words: &[String]) -> anyhow::Result<()> {
    let [flow, table, case] = words else {
        return Err(anyhow!("evaluate wants a flow, a table and a case"));
    };
    show_files(rt, flow.as_str(), table.as_str(), case.as_str())
}

fn show_files(rt: &HostRuntime, flow_file: &str, table: &str, case: &str) -> anyhow::Result<()> {
    let mut flow = Flow::fresh();
    if checking::load(rt, flow_file, &mut flow)?.is_none() {
        return Ok(());
    }
    let mut partner = RuleTable::new();
    if asking::load(rt, table, &mut partner)?.is_none() {
        return Ok(());
    }
    let Some(case) = cases::load(rt, case)? else {
        return Ok(());
    };
    match evaluate(&flow, &case, &mut partner) {
        Some(evaluated) => show_evaluated(rt, &flow, &evaluated)?,
        None => println!(rt; "busy")?,
    }
    Ok(())
}

fn show_evaluated(rt: &HostRuntime, flow: &Flow, evaluated: &Evaluated) -> io::Result<()> {
    for activity in 0..flow.activity_count() {
        show_activity(rt, evaluated, activity)?;
    }
    for (link, status) in evaluated.statuses().iter().enumerate() {
        println!(rt; "link {link}: {status}")?;
    }
    let charge = evaluated.charge();
    println!(rt; "charge: {charge}")
}

/// The ending of an activity, and under it the input that it was given.
fn show_activity(rt: &HostRuntime, evaluated: &Evaluated, activity: usize) -> io::Result<()> {
    let Some(outcome) = evaluated.outcome(activity) else {
        return Ok(());
    };
    println!(rt; "activity {activity}: {outcome}")?;
    if let Some(input) = evaluated.input(activity)
        && outcome != Outcome::Skipped
    {
        println!(rt; "            input     {input}")?;
    }
    Ok(())
}
