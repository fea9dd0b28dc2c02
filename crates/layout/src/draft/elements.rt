ghost use Rattle.std.specs.Prelude.{◌≡◌, [], map, length};
ghost use Rattle.conditions.specs.Texts.{text_bytes};
ghost use Rattle.layout.specs.Drafts.{parts_of, ElementAt, zero_activity, zero_link, zero_connector};

use super::Draft;
use conditions::text::Text;
use parts::{Activity, Connector, Link};

// Each list has calls of its own, since its elements have a type of their own; each is one call of the list.
impl Draft {
    pub fn activity_count(&self) -> usize
        ensures { result ≡ length (parts_of self.now).activities }
    {
        self.activities.len()
    }

    pub fn link_count(&self) -> usize
        ensures { result ≡ length (parts_of self.now).links }
    {
        self.links.len()
    }

    pub fn connector_count(&self) -> usize
        ensures { result ≡ length (parts_of self.now).connectors }
    {
        self.connectors.len()
    }

    /// As many as links and activities.
    pub fn text_count(&self) -> usize
        ensures { result ≡ length (parts_of self.now).texts }
    {
        self.texts.len()
    }

    pub fn activities(&self) -> &[Activity]
        ensures { result.now ≡ (parts_of self.now).activities }
    {
        self.activities.as_slice()
    }

    pub fn links(&self) -> &[Link]
        ensures { result.now ≡ (parts_of self.now).links }
    {
        self.links.as_slice()
    }

    pub fn connectors(&self) -> &[Connector]
        ensures { result.now ≡ (parts_of self.now).connectors }
    {
        self.connectors.as_slice()
    }

    pub fn texts(&self) -> &[Text]
        ensures { map text_bytes result.now ≡ (parts_of self.now).texts }
    {
        self.texts.as_slice()
    }

    pub fn activity(&self, i: usize) -> Option<Activity>
        ensures { ElementAt (λ a. a) zero_activity (parts_of self.now).activities i result }
    {
        self.activities.get(i)
    }

    pub fn link(&self, i: usize) -> Option<Link>
        ensures { ElementAt (λ l. l) zero_link (parts_of self.now).links i result }
    {
        self.links.get(i)
    }

    pub fn connector(&self, i: usize) -> Option<Connector>
        ensures { ElementAt (λ c. c) zero_connector (parts_of self.now).connectors i result }
    {
        self.connectors.get(i)
    }

    /// The transition of link i, or past the links the join of an activity.
    pub fn text(&self, i: usize) -> Option<Text>
        ensures { ElementAt text_bytes [] (parts_of self.now).texts i result }
    {
        self.texts.get(i)
    }
}
