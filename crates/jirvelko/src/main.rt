//! The library's calls from the command line.

#![tactic(auto)]

use anyhow::anyhow;
use commands::{cases, files, ordering, starting, weighing};
use std::io;
use std::process::ExitCode;

mod sample;

const USAGE: &str =
    "usage: jirvelko [samples | case FILE.. | weigh TEXT [f0=NUMBER ..] | script FILE]";

fn main(rt: HostRuntime) -> ExitCode {
    starting::start(&rt, call)
}

fn call(rt: &HostRuntime, words: &[String]) -> anyhow::Result<()> {
    let Some((command, rest)) = words.split_first() else {
        return show_samples(rt);
    };
    match command.as_str() {
        "case" => files::show_each(rt, rest, cases::show_file),
        "weigh" => weighing::show(rt, rest, write_text),
        "samples" => show_samples(rt),
        _ => Err(anyhow!(USAGE)),
    }
}

fn show_samples(rt: &HostRuntime) -> anyhow::Result<()> {
    sample::show(rt)?;
    weighing::show_sample(rt, write_text)?;
    ordering::show_sample(rt)?;
    Ok(())
}

fn write_text(rt: &HostRuntime, text: &str) -> io::Result<()> {
    print!(rt; "{text}")
}
