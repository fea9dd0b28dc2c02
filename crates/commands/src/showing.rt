//! Refusals, as the programs show them.

ghost use Rattle.std.specs.Prelude.{◌≡◌, IfOk};
ghost use Rattle.std.specs.Result.{result_ok};

use refusals::Refusal;
use std::fmt::Display;
use std::io;

/// A refusal with its number, its place and its words.
pub fn show_refusal<R: Refusal + Display>(rt: &HostRuntime, refusal: &R) -> io::Result<()> {
    let cause = refusal.cause();
    let place = refusal.place();
    println!(rt; "refused: cause {cause}, place {place} ({refusal})")
}

/// What was read from a file; where it was refused, that is shown under the file's name.
pub fn accepted<T, R: Refusal + Display + Drop>(
    rt: &HostRuntime,
    file: &str,
    read: Result<T, R>,
) -> io::Result<Option<T>>
    ensures { IfOk result (λ kept. kept ≡ result_ok read) }
{
    match read {
        Ok(value) => Ok(Some(value)),
        Err(refusal) => {
            println!(rt; "{file}")?;
            show_refusal(rt, &refusal)?;
            Ok(None)
        }
    }
}
