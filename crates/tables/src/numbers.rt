ghost use Rattle.std.specs.Prelude.{◌≡◌, length, replicate, Decides};
ghost use Rattle.values.specs.Layout.{signed_bytes};

/// The signed number that eight bytes are, the lowest first.
pub(crate) fn signed_number(bytes: &[u8; 8]) -> i64
    ensures { bytes.now ≡ signed_bytes result }
{
    i64::from_le_bytes(*bytes)
}

/// Whether all bytes are 0.
pub(crate) fn all_zero(bytes: &[u8]) -> bool
    ensures { Decides result (bytes.now ≡ replicate (length bytes.now) 0) }
{
    bytes.iter().all(|b| *b == 0)
}
