//! Bytes of rule tables, put together for tests.

use std::alloc::{AllocError, Global};

pub(crate) const BLANK: (u8, i64) = (0, 0);

/// Any row, sound or not.
#[derive(Clone, Copy)]
pub(crate) struct AnyRow {
    pub(crate) operation: u16,
    pub(crate) tested: u8,
    pub(crate) low: i64,
    pub(crate) high: i64,
    pub(crate) fault: u16,
    pub(crate) outputs: [(u8, i64); 8],
}

/// A row that fits every input and gives eight blanks.
pub(crate) const PLAIN: AnyRow = AnyRow {
    operation: 1,
    tested: 255,
    low: 0,
    high: 0,
    fault: 0,
    outputs: [BLANK; 8],
};

impl AnyRow {
    fn put(&self, bytes: &mut Vec<u8>) -> Result<(), AllocError> {
        bytes.extend_from_slice(&self.operation.to_le_bytes())?;
        bytes.push(self.tested)?;
        bytes.extend_from_slice(&self.low.to_le_bytes())?;
        bytes.extend_from_slice(&self.high.to_le_bytes())?;
        bytes.extend_from_slice(&self.fault.to_le_bytes())?;
        for (tag, value) in &self.outputs {
            bytes.push(*tag)?;
            bytes.extend_from_slice(&value.to_le_bytes())?;
        }
        Ok(())
    }
}

/// The bytes of a table: this count, and then the rows.
pub(crate) fn table_bytes(
    alloc: Global,
    count: u16,
    rows: &[AnyRow],
) -> Result<Vec<u8>, AllocError> {
    let mut bytes = count.to_le_bytes().to_vec(alloc)?;
    for row in rows {
        row.put(&mut bytes)?;
    }
    Ok(bytes)
}
