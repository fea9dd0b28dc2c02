ghost use Rattle.std.specs.Prelude.{◌≡◌, []};
ghost use Rattle.lists.specs.Lists.{items};
ghost use Rattle.layout.specs.Verdicts.{OneVerdict, OneEncoding};
ghost use Rattle.layout.specs.Drafts.{LayoutRead, ReadAsWritten};

use super::Draft;
use crate::reader::Reader;
use crate::refusal::LayoutRefusal;
use crate::sections::section;
use conditions::text::Text;
use lists::BoundedList;
use parts::{Activity, Connector, Link};

// A function of its own: its places are cleared at once then, where in `read` they would be filled one by one and copied.
fn no_texts() -> BoundedList<Text, 160>
    ensures { items result ≡ [] }
{
    BoundedList::new(Text::default())
}

impl Draft {
    /// The parts that bytes with the layout of a definition are written from.
    pub fn read(bytes: &[u8]) -> Result<Draft, LayoutRefusal>
        ensures verdict { LayoutRead bytes.now result }
        ensures read_as_written { ReadAsWritten bytes.now result }
        ensures one_verdict { OneVerdict bytes.now }
        ensures one_encoding { OneEncoding }
    {
        let mut activities = BoundedList::new(Activity::default());
        let mut links = BoundedList::new(Link::default());
        let mut connectors = BoundedList::new(Connector::default());
        let mut texts = no_texts();
        let mut reader = Reader::new(bytes);
        section(&mut reader, &mut activities, 1, 32)?;
        section(&mut reader, &mut links, 0, 128)?;
        section(&mut reader, &mut connectors, 0, 256)?;
        let text_count = links.len() + activities.len();
        section(&mut reader, &mut texts, text_count, text_count)?;
        reader.end()?;
        Ok(Draft {
            activities,
            links,
            connectors,
            texts,
        })
    }
}
