ghost use Rattle.std.specs.Prelude.{◌≡◌};
ghost use Rattle.tokens.specs.Classes.{class};

/// What a byte of a condition text can be part of.
#[derive(Clone, Copy, PartialEq, Eq, Debug)]
pub enum Class {
    Space,
    Letter,
    Digit,
    Minus,
    Sign,
    Parenthesis,
    Other,
}

impl Class {
    #[tactic(auto, using(std::proofs::lemmas::Bool::Decides::nat_tests), unfolding(crate::specs::Classes::class))]
    pub fn of(byte: u8) -> Class
        ensures { result ≡ class byte }
    {
        match byte {
            b' ' => Class::Space,
            b'a'..=b'z' | b'A'..=b'Z' => Class::Letter,
            b'0'..=b'9' => Class::Digit,
            b'-' => Class::Minus,
            b'<' | b'=' | b'>' | b'!' => Class::Sign,
            b'(' | b')' => Class::Parenthesis,
            _ => Class::Other,
        }
    }
}
