ghost use Rattle.std.specs.Prelude.{◌≡◌, ℕ, Bool, ◌<◌, ◌≤◌, false, [], ◌∷◌, length, drop, ◌≢◌, slice_index};
ghost use Rattle.std.specs.Iterator.{item_count, ActsAsAt};
ghost use Rattle.tokens.specs.Classes.{word_byte, space_byte};
ghost use Rattle.tokens.specs.Tokens.{run, span, tokens_from};
ghost use Rattle.tokens.specs.Lexing.{bytes_of, Apt, long_sign, FrontIs, Fronts, Nexts};
ghost use Rattle.tokens.specs.Following.{text_of, to_come, Follows};

use super::Lexer;
use crate::class::Class;
use crate::fault::Fault;
use crate::symbol::Located;
use crate::token::Token;
use values::amount::Comparison;

fn is_word(byte: &u8) -> bool
    ensures { result ≡ word_byte byte.now }
{
    matches!(Class::of(*byte), Class::Letter | Class::Digit)
}

fn is_space(byte: &u8) -> bool
    ensures { result ≡ space_byte byte.now }
{
    Class::of(*byte) == Class::Space
}

/// How many bytes at the front pass a test.
fn span<F: FnMut(&u8) -> bool>(bytes: &[u8], passes: F) -> usize
    requires { (state : F) (b : _) → F.pre state b }
    ensures run { (f : ℕ → Bool) → ActsAsAt F.FnMut passes f → result ≡ span f bytes.now }
    ensures within { result ≤ length bytes.now }
{
    bytes.iter().copied().take_while(passes).count()
}

/// How many bytes at the front are letters or digits.
fn run_length(bytes: &[u8]) -> usize
    ensures run { result ≡ run bytes.now }
    ensures within { result ≤ length bytes.now }
{
    span(bytes, is_word)
}

/// A token of one byte, told by the byte as a character.
fn single<'a>(byte: u8) -> Token<'a>
    requires { word_byte byte ≡ false }
    ensures bytes { bytes_of result ≡ byte ∷ [] }
    ensures apt { Apt result }
{
    match byte as char {
        '(' => Token::Open,
        ')' => Token::Close,
        '<' => Token::Sign(Comparison::Less),
        '=' => Token::Sign(Comparison::Equal),
        '>' => Token::Sign(Comparison::Greater),
        _ => Token::Other(byte),
    }
}

/// The sign of two bytes at the front.
fn double(rest: &[u8]) -> Option<Comparison>
    ensures { result ≡ long_sign (slice_index rest.now 0) (slice_index rest.now 1) }
{
    match rest {
        [b'<', b'=', ..] => Some(Comparison::AtMost),
        [b'>', b'=', ..] => Some(Comparison::AtLeast),
        [b'!', b'=', ..] => Some(Comparison::Unequal),
        _ => None,
    }
}

/// A minus, with the word directly after it, which has this length.
fn minus<'a>(rest: &'a [u8], word: usize) -> (Token<'a>, usize)
    requires first { slice_index rest.now 0 ≡ 45 }
    requires word { word ≡ run (drop 1 rest.now) }
    requires within { word < length rest.now }
    ensures { FrontIs rest.now result.0 result.1 }
{
    if word == 0 {
        (Token::Other(b'-'), 1)
    } else {
        (Token::Number(&rest[..=word]), word + 1)
    }
}

/// The token at the front where that is no minus.
fn plain<'a>(rest: &'a [u8], first: u8) -> (Token<'a>, usize)
    requires first { first ≡ slice_index rest.now 0 }
    requires some { 0 < length rest.now }
    requires no_minus { first ≢ 45 }
    ensures { FrontIs rest.now result.0 result.1 }
{
    match Class::of(first) {
        Class::Letter => {
            let n = run_length(rest);
            (Token::Word(&rest[..n]), n)
        }
        Class::Digit => {
            let n = run_length(rest);
            (Token::Number(&rest[..n]), n)
        }
        Class::Sign => match double(rest) {
            Some(sign) => (Token::Sign(sign), 2),
            None => (single(first), 1),
        },
        _ => (single(first), 1),
    }
}

/// The token at the front and its length.
fn front<'a>(rest: &'a [u8]) -> Option<(Token<'a>, usize)>
    ensures { Fronts rest.now result }
{
    match rest {
        [] => None,
        [b'-', tail @ ..] => Some(minus(rest, run_length(tail))),
        [first, ..] => Some(plain(rest, *first)),
    }
}

impl<'a> Lexer<'a> {
    pub fn new(text: &'a [u8]) -> Lexer<'a>
        ensures { (result.text.now ≡ text.now) × (result.place ≡ 0) }
    {
        Lexer { text, place: 0 }
    }

    /// What the next token says, or the fault of a bad token.
    pub fn symbol(&mut self) -> Result<Located, Fault>
        ensures text { text_of self.new ≡ text_of self.old }
        ensures symbol { Follows (length (text_of self.old)) (to_come self.old) result (to_come self.new) }
    {
        let end = self.text.len();
        let Some((place, token)) = self.next() else {
            return Ok(Located {
                place: end,
                symbol: None,
            });
        };
        let symbol = token.symbol().ok_or(Fault { place })?;
        Ok(Located {
            place,
            symbol: Some(symbol),
        })
    }
}

/// The tokens from the place on, each with the place of its first byte.
impl<'a> Iterator for Lexer<'a> {
    type Item = (usize, Token<'a>);

    ghost next_gives = { λ s r t. (t.text.now ≡ s.text.now) × Nexts (tokens_from s.text.now s.place) r (tokens_from t.text.now t.place) };

    ghost remaining = { item_count (λ l. tokens_from l.text.now l.place) };

    fn next(&mut self) -> Option<(usize, Token<'a>)> {
        self.place += span(&self.text[self.place..], is_space);
        let at = self.place;
        let (token, n) = front(&self.text[at..])?;
        self.place = at + n;
        Some((at, token))
    }
}
