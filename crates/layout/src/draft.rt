ghost use Rattle.std.specs.Prelude.{◌≡◌, ◌+◌, ◌≤◌, length};
ghost use Rattle.lists.specs.Lists.{items};

use conditions::text::Text;
use lists::BoundedList;
use parts::{Activity, Connector, Link};

pub mod elements;
pub mod reading;

/// The parts of a definition.
/// There are as many texts as links and activities: the transitions of the links, then the joins of the activities.
#[derive(Clone, Copy)]
pub struct Draft {
    activities: BoundedList<Activity, 32>,
    links: BoundedList<Link, 128>,
    connectors: BoundedList<Connector, 256>,
    texts: BoundedList<Text, 160>,
    ghost some_activities: { 1 ≤ length (items activities) },
    ghost as_many_texts: { length (items texts) ≡ length (items links) + length (items activities) },
}
