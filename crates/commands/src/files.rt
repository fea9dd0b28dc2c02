use anyhow::anyhow;
use std::fs;

/// The bytes of a file, or an error that names it.
pub fn read(rt: &HostRuntime, file: &str) -> anyhow::Result<Vec<u8>> {
    fs::read(rt, file).map_err(|error| anyhow!("cannot read {file}: {error}"))
}

/// Shows each of the files that are named, one after the other.
pub fn show_each<F: Fn(&HostRuntime, &str) -> anyhow::Result<()>>(
    rt: &HostRuntime,
    files: &[String],
    show: F,
) -> anyhow::Result<()>
    requires { F.IsAlwaysCallable show }
{
    for file in files {
        show(rt, file.as_str())?;
    }
    Ok(())
}
