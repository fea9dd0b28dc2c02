//! `jirvelko weigh`: whether a transition text holds over a container, or the place of its fault.

use anyhow::anyhow;
use conditions::text::Text;
use std::io;
use values::amount::Amount;
use values::container::Container;
use values::field::{Field, FieldNumber};

/// A sample text over a container, and one with a fault. What writes a text is handed over.
pub fn show_sample<F: Fn(&HostRuntime, &str) -> io::Result<()>>(
    rt: &HostRuntime,
    write_text: F,
) -> anyhow::Result<()>
    requires { F.IsAlwaysCallable write_text }
{
    println!(rt; "a sample condition over f0 = 250")?;
    let mut output = Container::blank();
    set_field(&mut output, "f0=250")?;
    for text in ["f0 <= 300 and not f1 < 5", "f0 300"] {
        println!(rt; "{text}")?;
        weigh(rt, text, &output, &write_text)?;
    }
    Ok(())
}

/// The text, then fields as `f0=250` or `f1=-`; those that are not given are blank.
pub fn show<F: Fn(&HostRuntime, &str) -> io::Result<()>>(
    rt: &HostRuntime,
    words: &[String],
    write_text: F,
) -> anyhow::Result<()>
    requires { F.IsAlwaysCallable write_text }
{
    let (text, fields) = words
        .split_first()
        .ok_or_else(|| anyhow!("weigh wants a text"))?;
    let mut output = Container::blank();
    for field in fields {
        set_field(&mut output, field.as_str())?;
    }
    weigh(rt, text.as_str(), &output, &write_text)
}

fn weigh<F: Fn(&HostRuntime, &str) -> io::Result<()>>(
    rt: &HostRuntime,
    text: &str,
    output: &Container,
    write_text: &F,
) -> anyhow::Result<()>
    requires { F.IsAlwaysCallable write_text.now }
{
    let Some(condition) = Text::new(text.as_bytes()) else {
        println!(rt; "refused: a text has at most 60 bytes")?;
        return Ok(());
    };
    match condition.weigh_transition(output) {
        Ok(holds) => println!(rt; "{holds}")?,
        Err(fault) => {
            let place = fault.place;
            println!(rt; "fault at place {place}")?;
            print!(rt; "  ")?;
            write_text(rt, text)?;
            show_caret(rt, place)?;
        }
    }
    Ok(())
}

/// On a line of its own, under a place of the text above.
pub fn show_caret(rt: &HostRuntime, place: usize) -> io::Result<()> {
    println!(rt)?;
    println!(rt; "  {:place$}^", "")
}

fn set_field(output: &mut Container, word: &str) -> anyhow::Result<()> {
    let (name, value) = word
        .split_once('=')
        .ok_or_else(|| anyhow!("a field is given as f0=250 or f1=-"))?;
    let digit = name
        .strip_prefix('f')
        .ok_or_else(|| anyhow!("fields are f0 to f7"))?;
    let number = FieldNumber::new(digit.parse::<u8>()?).ok_or_else(|| anyhow!(
        "fields are f0 to f7"
    ))?;
    output.set(number, field_of(value)?);
    Ok(())
}

fn field_of(value: &str) -> anyhow::Result<Field> {
    if value == "-" {
        return Ok(Field::Blank);
    }
    let amount = Amount::new(value.parse::<i64>()?).ok_or_else(|| anyhow!(
        "a number lies strictly between -10^12 and 10^12"
    ))?;
    Ok(Field::Number(amount))
}
