ghost use Rattle.std.specs.Prelude.{◌+◌, ◌^◌, ◌<◌, length};

pub mod steps;

/// The bytes that are left to read, and how many are read.
#[derive(Drop)]
pub struct Reader<'a> {
    rest: &'a [u8],
    at: usize,
    ghost in_range: { at + length rest.now < 2 ^ 64 },
}
