use lists::BoundedList;

pub mod bytes;
pub mod weighing;

/// The bytes of a condition text: at most 60.
#[derive(Clone, Copy)]
pub struct Text {
    bytes: BoundedList<u8, 60>,
}
