use commands::weighing::show_caret;
use std::io;

/// Of a text that need not be characters; what cannot be printed is shown as `?`.
pub fn write_bytes(rt: &HostRuntime, text: &[u8]) -> io::Result<()> {
    for byte in text {
        let shown = match *byte {
            32..=126 => char::from(*byte),
            _ => '?',
        };
        print!(rt; "{shown}")?;
    }
    Ok(())
}

pub fn write_text(rt: &HostRuntime, text: &str) -> io::Result<()> {
    write_bytes(rt, text.as_bytes())
}

/// A text with a caret under a place.
pub fn show_place(rt: &HostRuntime, text: &[u8], place: usize) -> io::Result<()> {
    print!(rt; "  ")?;
    write_bytes(rt, text)?;
    show_caret(rt, place)
}
