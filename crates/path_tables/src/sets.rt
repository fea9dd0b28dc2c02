mod calls;

/// A set of activities below 32, with a bit for each.
#[derive(Clone, Copy)]
pub struct ActivitySet {
    bits: u32,
}
