ghost use Rattle.std.specs.Prelude.{◌≡◌, ℕ, ◌≤◌, List, [], MatchResult};
ghost use Rattle.lists.specs.Lists.{items as elements};
ghost use Rattle.conditions.specs.Texts.{text_bytes};
ghost use Rattle.layout.specs.declared.reader.Reader.{Reader};
ghost use Rattle.layout.specs.declared.refusal.LayoutRefusal.{LayoutRefusal};
ghost use Rattle.layout.specs.Layout.{Item, record_items, text_items, activity_bytes, link_bytes, connector_bytes, GoodText};
ghost use Rattle.layout.specs.Reading.{Any, CutAt, TextStops, ElementIs, SectionIs, SectionStops};

use crate::reader::Reader;
use crate::reader::steps::number;
use crate::refusal::LayoutRefusal;
use conditions::text::Text;
use lists::BoundedList;
use parts::{Activity, Connector, Link};

const LEAST_TEXT_LENGTH: usize = 1;

const GREATEST_TEXT_LENGTH: usize = 60;

/// What a section has after its count, one after the other.
pub trait Element: Copy + Default {
    ghost items: { Self → List Item };

    ghost good: { Self → Type 0 };

    ghost stops: { Reader → LayoutRefusal → Type 0 };

    fn read(reader: &mut Reader) -> Result<Self, LayoutRefusal>
        ensures { MatchResult result (ElementIs items good reader.old reader.new) (stops reader.old) };
}

impl Element for Activity {
    ghost items = { record_items activity_bytes };

    ghost good = { Any };

    ghost stops = { CutAt 4 };

    fn read(reader: &mut Reader) -> Result<Activity, LayoutRefusal> {
        let [low, high, priority, flags] = reader.array::<4>()?;
        Ok(Activity {
            operation: number(low, high),
            priority,
            flags,
        })
    }
}

impl Element for Link {
    ghost items = { record_items link_bytes };

    ghost good = { Any };

    ghost stops = { CutAt 2 };

    fn read(reader: &mut Reader) -> Result<Link, LayoutRefusal> {
        let [source, target] = reader.array::<2>()?;
        Ok(Link { source, target })
    }
}

impl Element for Connector {
    ghost items = { record_items connector_bytes };

    ghost good = { Any };

    ghost stops = { CutAt 5 };

    fn read(reader: &mut Reader) -> Result<Connector, LayoutRefusal> {
        let [target, target_field, kind, source, source_field] = reader.array::<5>()?;
        Ok(Connector {
            target,
            target_field,
            kind,
            source,
            source_field,
        })
    }
}

impl Element for Text {
    ghost items = { λ t. text_items (text_bytes t) };

    ghost good = { λ t. GoodText (text_bytes t) };

    ghost stops = { TextStops };

    fn read(reader: &mut Reader) -> Result<Text, LayoutRefusal> {
        let at = reader.place();
        let length = usize::from(reader.byte()?);
        if !(LEAST_TEXT_LENGTH..=GREATEST_TEXT_LENGTH).contains(&length) {
            return Err(LayoutRefusal::TextLength(at));
        }
        let content = reader.take(length)?;
        Ok(Text::new(content).unwrap())
    }
}

/// Reads a section, its count and its elements, into an empty list.
pub fn section<E: Element, const N: usize>(
    reader: &mut Reader,
    list: &mut BoundedList<E, N>,
    least: usize,
    greatest: usize,
) -> Result<(), LayoutRefusal>
    requires few { greatest ≤ N }
    requires empty { elements list.old ≡ [] }
    ensures { MatchResult result (λ _. SectionIs E.Element.items E.Element.good reader.old reader.new least greatest (elements list.new)) (SectionStops E.Element.items E.Element.good E.Element.stops reader.old least greatest) }
{
    let n = reader.count(least, greatest)?;
    for _ in 0..n {
        let element = E::read(reader)?;
        list.push(element).unwrap();
    }
    Ok(())
}
