ghost use Rattle.std.specs.Prelude.{◌≤◌};

pub mod calls;
pub mod making;

/// A layer that calls the partner below again while it is busy, up to so many times in all.
#[derive(PartialEq, Eq, Debug, Drop)]
pub struct Retry<P> {
    below: P,
    tries: usize,
    ghost some: { 1 ≤ tries },
    ghost few: { tries ≤ 8 },
}
