//! A sample case, and its eight fields.

use commands::{cases, showing};
use std::io;
use values::case::read_case;

/// f0 = 250, f3 = -40, else blank.
const SAMPLE: [u8; 72] = [
    1, 250, 0, 0, 0, 0, 0, 0, 0, // f0
    0, 0, 0, 0, 0, 0, 0, 0, 0, // f1
    0, 0, 0, 0, 0, 0, 0, 0, 0, // f2
    1, 216, 255, 255, 255, 255, 255, 255, 255, // f3
    0, 0, 0, 0, 0, 0, 0, 0, 0, // f4
    0, 0, 0, 0, 0, 0, 0, 0, 0, // f5
    0, 0, 0, 0, 0, 0, 0, 0, 0, // f6
    0, 0, 0, 0, 0, 0, 0, 0, 0, // f7
];

pub fn show(rt: &HostRuntime) -> io::Result<()> {
    println!(rt; "a sample case")?;
    match read_case(&SAMPLE) {
        Ok(case) => cases::show_fields(rt, &case),
        Err(refusal) => showing::show_refusal(rt, &refusal),
    }
}
