//! The library's calls for hosts in C.

#![tactic(auto)]

ghost use Rattle.std.specs.Prelude.{◌≡◌};
ghost use Rattle.host.specs.Verdicts.{Told};

use flows::flow::Flow;
use refusals::Refusal;

/// Cause 0 and place 0 where a definition is accepted, else the numbers of its refusal.
#[repr(C)]
#[derive(Clone, Copy, PartialEq, Eq, Debug)]
pub struct JirvelkoVerdict {
    pub cause: u32,
    pub place: u32,
}

/// Whether the bytes are a definition.
#[unsafe(no_mangle)]
pub extern "C" fn jirvelko_check_definition(bytes: &[u8]) -> JirvelkoVerdict
    ensures { Told bytes.now result }
{
    // Each arm is a whole verdict; `map_or_else` would take the refusal's first, and is no plainer.
    match Flow::fresh().read(bytes) {
        Ok(()) => JirvelkoVerdict { cause: 0, place: 0 },
        Err(refusal) => JirvelkoVerdict {
            cause: u32::from(refusal.cause()),
            place: refusal.place() as u32,
        },
    }
}
