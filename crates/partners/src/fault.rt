ghost use Rattle.std.specs.Prelude.{◌≤◌};

pub mod codes;

/// Why a partner does not do what it is asked: a code from 1 to 65535.
#[derive(Clone, Copy, PartialEq, Eq, Debug)]
pub struct Fault {
    code: u16,
    ghost some: { 1 ≤ code },
}
