ghost use Rattle.std.specs.Prelude.{◌≡◌, ℕ, ◌<◌, ◌≤◌, length, IfSome, Some, None};
ghost use Rattle.std.specs.Option.{option_map};
ghost use Rattle.values.specs.Amounts.{size};
ghost use Rattle.tokens.specs.Words.{numeral, number, plus, minus, link_number};

use values::amount::Amount;

/// The number that digits write: 0, or at most so many digits, the first not 0.
fn read_numeral(most: usize, digits: &[u8]) -> Option<u64>
    requires { most ≤ 12 }
    ensures value { result ≡ numeral most digits.now }
    ensures bound { IfSome result (λ n. n < 1_000_000_000_000) }
{
    if matches!(digits, [] | [b'0', _, ..]) || digits.len() > most {
        return None;
    }
    let mut n = 0;
    for b in digits {
        if !b.is_ascii_digit() {
            return None;
        }
        n = n * 10 + u64::from(*b - b'0');
    }
    Some(n)
}

fn positive(n: u64) -> Option<Amount>
    requires { n < 1_000_000_000_000 }
    ensures { option_map size result ≡ plus (Some n) }
{
    Amount::new(n as i64)
}

/// There is no -0.
fn negative(n: u64) -> Option<Amount>
    requires { n < 1_000_000_000_000 }
    ensures { option_map size result ≡ minus (Some n) }
{
    if n == 0 {
        None
    } else {
        Amount::new(-(n as i64))
    }
}

/// A number, with or without a minus.
pub(crate) fn read_number(part: &[u8]) -> Option<Amount>
    ensures { option_map size result ≡ number part.now }
{
    match part {
        [b'-', digits @ ..] => negative(read_numeral(12, digits)?),
        digits => positive(read_numeral(12, digits)?),
    }
}

/// The number of a link, 0 to 127.
pub(crate) fn read_link(digits: &[u8]) -> Option<u8>
    ensures { result ≡ link_number digits.now }
{
    let n = read_numeral(3, digits)?;
    u8::try_from(n).ok().filter(|n| *n < 128)
}
