use conditions::ground::Incoming;
use conditions::text::Text;
use std::process::Abort;
use std::test::Fail;
use tokens::fault::Fault;
use values::amount::Amount;
use values::container::Container;
use values::field::Field;

fn number(value: i64) -> Result<Field, Fail> {
    let amount = Amount::new(value).ok_or_else(|| Fail::new("no amount"))?;
    Ok(Field::Number(amount))
}

/// f0 = 5, f2 = -7, f3 = 0, f4 and f5 the largest and the smallest, f7 = 12; f1 and f6 are blank.
fn output() -> Result<Container, Fail> {
    Ok(Container::new([
        number(5)?,
        Field::Blank,
        number(-7)?,
        number(0)?,
        number(999_999_999_999)?,
        number(-999_999_999_999)?,
        Field::Blank,
        number(12)?,
    ]))
}

pub(crate) fn text(bytes: &[u8]) -> Result<Text, Fail> {
    Text::new(bytes).ok_or_else(|| Fail::new("too long"))
}

/// Checking and weighing these bytes answered the same: the value, or the fault that is expected.
fn both(
    rt: &impl Abort,
    bytes: &[u8],
    checked: Result<(), Fault>,
    weighed: Result<bool, Fault>,
    expected: Result<bool, Fault>,
) {
    assert_eq!(rt; checked, expected.map(|_| ()), "{bytes:?}");
    assert_eq!(rt; weighed, expected, "{bytes:?}");
}

/// The transition text has this value over the output above, or it is none, with this fault.
pub(crate) fn transition(
    rt: &impl Abort,
    bytes: &[u8],
    expected: Result<bool, Fault>,
) -> Result<(), Fail> {
    let text = text(bytes)?;
    let weighed = text.weigh_transition(&output()?);
    both(rt, bytes, text.check_transition(), weighed, expected);
    Ok(())
}

/// The join text has this value over these links, or it is none over them, with this fault.
pub(crate) fn join(
    rt: &impl Abort,
    bytes: &[u8],
    links: &[Incoming],
    expected: Result<bool, Fault>,
) -> Result<(), Fail> {
    let text = text(bytes)?;
    both(
        rt,
        bytes,
        text.check_join(links),
        text.weigh_join(links),
        expected,
    );
    Ok(())
}

/// Each transition text has the value beside it.
pub(crate) fn transition_values(rt: &impl Abort, texts: &[(&[u8], bool)]) -> Result<(), Fail> {
    for (bytes, value) in texts {
        transition(rt, bytes, Ok(*value))?;
    }
    Ok(())
}

/// Each is no transition text, and has its fault at the place beside it.
pub(crate) fn transition_faults(rt: &impl Abort, texts: &[(&[u8], usize)]) -> Result<(), Fail> {
    for (bytes, place) in texts {
        transition(rt, bytes, Err(Fault { place: *place }))?;
    }
    Ok(())
}
