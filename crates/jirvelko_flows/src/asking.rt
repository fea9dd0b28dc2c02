//! `jirvelko ask`: what a rule table answers to an operation and an input.

use anyhow::anyhow;
use commands::{cases, files, showing};
use partners::partner::{Partner, Reply};
use tables::table::RuleTable;
use values::container::Container;

pub fn show(rt: &HostRuntime, words: &[String]) -> anyhow::Result<()> {
    let [table, operation, case] = words else {
        return Err(anyhow!("ask wants a table, an operation and a case"));
    };
    let operation = operation.as_str().parse::<u16>()?;
    let mut partner = RuleTable::new();
    if load(rt, table.as_str(), &mut partner)?.is_none() {
        return Ok(());
    }
    let Some(input) = cases::load(rt, case.as_str())? else {
        return Ok(());
    };
    let mut output = Container::blank();
    match partner.call(operation, &input, &mut output) {
        Reply::Done => println!(rt; "{output}")?,
        Reply::Fault(fault) => println!(rt; "fault {fault}")?,
        Reply::Busy => println!(rt; "busy")?,
    }
    Ok(())
}

/// Reads the table in a file; where it is refused, that is shown. The table is lent, as a flow is.
pub fn load(rt: &HostRuntime, file: &str, table: &mut RuleTable) -> anyhow::Result<Option<()>> {
    let bytes = files::read(rt, file)?;
    let read = table.read(&bytes);
    Ok(showing::accepted(rt, file, read)?)
}
