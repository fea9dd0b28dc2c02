//! The eight fields of a case, or its refusal.

use crate::files;
use crate::showing::accepted;
use std::io;
use values::case::read_case;
use values::container::Container;

/// The fields of the case in a file; where it is refused, that is shown.
pub fn show_file(rt: &HostRuntime, file: &str) -> anyhow::Result<()> {
    let Some(case) = load(rt, file)? else {
        return Ok(());
    };
    println!(rt; "{file}")?;
    show_fields(rt, &case)?;
    Ok(())
}

/// The case in a file; where it is refused, that is shown.
pub fn load(rt: &HostRuntime, file: &str) -> anyhow::Result<Option<Container>> {
    let bytes = files::read(rt, file)?;
    Ok(accepted(rt, file, read_case(&bytes))?)
}

/// A line for each field.
pub fn show_fields(rt: &HostRuntime, case: &Container) -> io::Result<()> {
    for (number, field) in case.fields().iter().enumerate() {
        println!(rt; "f{number} = {field}")?;
    }
    Ok(())
}
