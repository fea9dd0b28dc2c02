ghost use Rattle.std.specs.Prelude.{◌≡◌, [], ◌∷◌, length, MatchResult};
ghost use Rattle.layout.specs.Layout.{two_bytes};
ghost use Rattle.layout.specs.Reading.{Took, CutAt, CountIs, CountStops, EndStops};

use super::Reader;
use crate::refusal::LayoutRefusal;

/// The number that two bytes are, the lowest first.
pub fn number(low: u8, high: u8) -> u16
    ensures { two_bytes result ≡ low ∷ high ∷ [] }
{
    u16::from_le_bytes([low, high])
}

impl<'a> Reader<'a> {
    pub fn new(bytes: &'a [u8]) -> Reader<'a>
        ensures rest { result.rest.now ≡ bytes.now }
        ensures start { result.at ≡ 0 }
    {
        Reader { rest: bytes, at: 0 }
    }

    /// How many bytes are read.
    pub fn place(&self) -> usize
        ensures { result ≡ self.now.at }
    {
        self.at
    }

    /// The next `n` bytes.
    pub fn take(&mut self, n: usize) -> Result<&'a [u8], LayoutRefusal>
        ensures { MatchResult result (λ s. Took self.old self.new s.now × (length s.now ≡ n)) (CutAt n self.old) }
    {
        let (taken, rest) = self
            .rest
            .split_at_checked(n)
            .ok_or(LayoutRefusal::Cut(self.at))?;
        self.rest = rest;
        self.at += n;
        Ok(taken)
    }

    /// The next `N` bytes.
    pub fn array<const N: usize>(&mut self) -> Result<[u8; N], LayoutRefusal>
        ensures { MatchResult result (λ s. Took self.old self.new s × (length s ≡ N)) (CutAt N self.old) }
    {
        Ok(self.take(N)?.try_into().unwrap())
    }

    /// The next byte.
    pub fn byte(&mut self) -> Result<u8, LayoutRefusal>
        ensures { MatchResult result (λ b. Took self.old self.new (b ∷ [])) (CutAt 1 self.old) }
    {
        let [byte] = self.array::<1>()?;
        Ok(byte)
    }

    /// A number in two bytes, the lowest first.
    fn number(&mut self) -> Result<u16, LayoutRefusal>
        ensures { MatchResult result (λ n. Took self.old self.new (two_bytes n)) (CutAt 2 self.old) }
    {
        let [low, high] = self.array::<2>()?;
        Ok(number(low, high))
    }

    // Two numbers and not a `RangeInclusive`: one that was iterated to its end contains nothing, and a clause would have to rule that out.
    /// A count within these limits.
    pub fn count(&mut self, least: usize, greatest: usize) -> Result<usize, LayoutRefusal>
        ensures { MatchResult result (CountIs self.old self.new least greatest) (CountStops self.old least greatest) }
    {
        let at = self.at;
        let count = usize::from(self.number()?);
        if !(least..=greatest).contains(&count) {
            return Err(LayoutRefusal::Count(at));
        }
        Ok(count)
    }

    /// Refuses bytes that are left.
    pub fn end(&self) -> Result<(), LayoutRefusal>
        ensures { MatchResult result (λ _. self.now.rest.now ≡ []) (EndStops self.now) }
    {
        match self.rest {
            [] => Ok(()),
            _ => Err(LayoutRefusal::Extra(self.at)),
        }
    }
}
