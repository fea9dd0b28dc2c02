ghost use Rattle.std.specs.Prelude.{◌≤◌, length};

pub mod tokens;

/// A condition text and how far its tokens are taken.
#[derive(Debug, Drop)]
pub struct Lexer<'a> {
    text: &'a [u8],
    place: usize,
    ghost within: { place ≤ length text.now },
}
