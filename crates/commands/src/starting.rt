//! How a program starts: with the words of its command line, or with those of each line of a script.

use std::alloc::Global;
use std::process::ExitCode;
use std::{env, fs};

/// Makes the call that the command line names, or each call of a script; an error is shown.
pub fn start<F: Fn(&HostRuntime, &[String]) -> anyhow::Result<()>>(
    rt: &HostRuntime,
    call: F,
) -> ExitCode
    requires { F.IsAlwaysCallable call }
{
    match run(rt, call) {
        Ok(()) => ExitCode::SUCCESS,
        Err(error) => {
            let _ = eprintln!(rt; "jirvelko: {error}");
            ExitCode::FAILURE
        }
    }
}

fn run<F: Fn(&HostRuntime, &[String]) -> anyhow::Result<()>>(
    rt: &HostRuntime,
    call: F,
) -> anyhow::Result<()>
    requires { F.IsAlwaysCallable call }
{
    let mut words = Vec::new(rt.alloc());
    for word in env::args(rt)?.skip(1) {
        words.push(word)?;
    }
    match &words[..] {
        [command, file] if command.as_str() == "script" => script(rt, file.as_str(), call),
        words => call(rt, words),
    }
}

/// Each line of the file is one call, its words separated by ` | `.
fn script<F: Fn(&HostRuntime, &[String]) -> anyhow::Result<()>>(
    rt: &HostRuntime,
    file: &str,
    call: F,
) -> anyhow::Result<()>
    requires { F.IsAlwaysCallable call }
{
    let text = fs::read_to_string(rt, file)?;
    for line in text.as_str().lines() {
        println!(rt; "> {line}")?;
        let words = words_of(rt.alloc(), line)?;
        call(rt, &words)?;
    }
    Ok(())
}

fn words_of(heap: Global, line: &str) -> anyhow::Result<Vec<String>> {
    let mut words = Vec::new(heap);
    for word in line.split(" | ") {
        words.push(String::from_str(heap, word)?)?;
    }
    Ok(words)
}
