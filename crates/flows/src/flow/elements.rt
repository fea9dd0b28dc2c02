ghost use Rattle.std.specs.Prelude.{◌≡◌, [], map, length};
ghost use Rattle.conditions.specs.Texts.{text_bytes};
ghost use Rattle.layout.specs.Drafts.{ElementAt, zero_activity, zero_link, zero_connector};
ghost use Rattle.path_laws.specs.Ranks.{Ranks, OneOrder, PathsLeadForward, WorkedOut};
ghost use Rattle.flows.specs.Flows.{flow_parts, flow_order, transition_texts, join_texts};

use super::Flow;
use conditions::text::Text;
use parts::{Activity, Connector, Link};

// Each kind of part has a type of its own, and callers name it by the call. The calls are one line each;
// one call for all kinds would need a trait, or a closure that names the kind again.
impl Flow {
    pub fn activity_count(&self) -> usize
        ensures { result ≡ length (flow_parts self.now).activities }
    {
        self.activities().len()
    }

    pub fn link_count(&self) -> usize
        ensures { result ≡ length (flow_parts self.now).links }
    {
        self.links().len()
    }

    pub fn connector_count(&self) -> usize
        ensures { result ≡ length (flow_parts self.now).connectors }
    {
        self.connectors().len()
    }

    /// As many as links and activities.
    pub fn text_count(&self) -> usize
        ensures { result ≡ length (flow_parts self.now).texts }
    {
        self.texts().len()
    }

    pub fn activities(&self) -> &[Activity]
        ensures { result.now ≡ (flow_parts self.now).activities }
    {
        self.draft.as_ref().map_or(&[], |draft| draft.activities())
    }

    pub fn links(&self) -> &[Link]
        ensures { result.now ≡ (flow_parts self.now).links }
    {
        self.draft.as_ref().map_or(&[], |draft| draft.links())
    }

    pub fn connectors(&self) -> &[Connector]
        ensures { result.now ≡ (flow_parts self.now).connectors }
    {
        self.draft.as_ref().map_or(&[], |draft| draft.connectors())
    }

    fn texts(&self) -> &[Text]
        ensures { map text_bytes result.now ≡ (flow_parts self.now).texts }
    {
        self.draft.as_ref().map_or(&[], |draft| draft.texts())
    }

    pub fn activity(&self, i: usize) -> Option<Activity>
        ensures { ElementAt (λ a. a) zero_activity (flow_parts self.now).activities i result }
    {
        self.activities().get(i).copied()
    }

    pub fn link(&self, i: usize) -> Option<Link>
        ensures { ElementAt (λ l. l) zero_link (flow_parts self.now).links i result }
    {
        self.links().get(i).copied()
    }

    pub fn connector(&self, i: usize) -> Option<Connector>
        ensures { ElementAt (λ c. c) zero_connector (flow_parts self.now).connectors i result }
    {
        self.connectors().get(i).copied()
    }

    /// The transition text of a link.
    pub fn transition(&self, link: usize) -> Option<Text>
        ensures { ElementAt text_bytes [] (transition_texts self.now) link result }
    {
        self.texts()[..self.link_count()].get(link).copied()
    }

    /// The join text of an activity.
    pub fn join(&self, activity: usize) -> Option<Text>
        ensures { ElementAt text_bytes [] (join_texts self.now) activity result }
    {
        self.texts()[self.link_count()..].get(activity).copied()
    }

    /// All activities, each the least of those whose link sources all stand before it.
    pub fn by_rank(&self) -> &[u8]
        ensures value { result.now ≡ flow_order self.now }
        ensures ranks { Ranks (length (flow_parts self.now).activities) (flow_parts self.now).links result.now }
        ensures one { OneOrder (length (flow_parts self.now).activities) (flow_parts self.now).links }
        ensures forward { PathsLeadForward (length (flow_parts self.now).activities) (flow_parts self.now).links }
        ensures worked_out { WorkedOut (length (flow_parts self.now).activities) (flow_parts self.now).links }
    {
        self.ranking.as_slice()
    }
}
