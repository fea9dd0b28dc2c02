//! The library's calls from the command line.

#![tactic(auto)]

use anyhow::anyhow;
use commands::{cases, files, ordering, starting, weighing};
use std::process::ExitCode;

mod asking;
mod checking;
mod evaluating;
mod texts;

const USAGE: &str =
    "usage: jirvelko [samples | case FILE.. | check FILE.. | weigh TEXT [f0=NUMBER ..] | ask TABLE OPERATION CASE | evaluate FLOW TABLE CASE | script FILE]";

fn main(rt: HostRuntime) -> ExitCode {
    starting::start(&rt, call)
}

fn call(rt: &HostRuntime, words: &[String]) -> anyhow::Result<()> {
    let Some((command, rest)) = words.split_first() else {
        return show_samples(rt);
    };
    match command.as_str() {
        "case" => files::show_each(rt, rest, cases::show_file),
        "check" => files::show_each(rt, rest, checking::show_file),
        "weigh" => weighing::show(rt, rest, texts::write_text),
        "ask" => asking::show(rt, rest),
        "evaluate" => evaluating::show(rt, rest),
        "samples" => show_samples(rt),
        _ => Err(anyhow!(USAGE)),
    }
}

/// The loan, whose files stand in samples/.
fn show_samples(rt: &HostRuntime) -> anyhow::Result<()> {
    checking::show_file(rt, "samples/loan.flow")?;
    cases::show_file(rt, "samples/loan.case")?;
    weighing::show_sample(rt, texts::write_text)?;
    ordering::show_sample(rt)?;
    evaluating::show_sample(rt)
}
