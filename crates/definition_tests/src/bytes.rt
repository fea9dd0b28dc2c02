use std::alloc::Global;
use std::test::Fail;

/// What stands from the first offset up to the second is replaced by these bytes.
pub(crate) type Edit = (usize, usize, &'static [u8]);

/// The bytes with these edits, which come by rising offset of the bytes as they were.
pub(crate) fn edited(alloc: Global, bytes: &[u8], edits: &[Edit]) -> Result<Vec<u8>, Fail> {
    let mut made = Vec::new(alloc);
    let mut from = 0;
    for (at, end, new) in edits {
        made.extend_from_slice(bytes.get(from..*at).ok_or("no such part")?)?;
        made.extend_from_slice(new)?;
        from = *end;
    }
    made.extend_from_slice(bytes.get(from..).ok_or("no such part")?)?;
    Ok(made)
}
