//! The statuses of links, and joins over them.

ghost use Rattle.std.specs.Prelude.{◌≡◌, ◌<◌, length};
ghost use Rattle.flows.specs.Flows.{flow_parts};
ghost use Rattle.evaluation_laws.specs.Evaluations.{statuses, joins};
ghost use Rattle.evaluation.specs.Flows.{flow_plan, valuation_of};

use super::Outcomes;
use flows::flow::Flow;
use rules::incoming;
use values::container::Container;

/// Whether the transition text of a link holds over this output.
fn transition_holds(flow: &Flow, link: usize, output: &Container) -> bool
    requires { link < length (flow_parts flow.now).links }
    ensures { result ≡ (flow_plan flow.now).transition link output.now }
{
    let text = flow.transition(link).unwrap();
    text.weigh_transition(output).unwrap_or(false)
}

impl Outcomes<'_> {
    /// The status of a link, where its source has its outcome.
    pub(crate) fn status(&self, link: usize) -> bool
        requires { link < length (flow_parts self.now.flow.now).links }
        ensures { result ≡ statuses (flow_plan self.now.flow.now) (valuation_of self.now.places.now) link }
    {
        let source = usize::from(self.flow.links()[link].source);
        let places = self.places;
        let outcome = &places[source];
        outcome
            .output()
            .is_some_and(|output| transition_holds(self.flow, link, output))
    }

    /// Whether the join text of an activity holds, where the sources of its incoming links have their outcomes.
    pub(crate) fn join_holds(&self, activity: usize) -> bool
        requires { activity < length (flow_parts self.now.flow.now).activities }
        ensures { result ≡ joins (flow_plan self.now.flow.now) (valuation_of self.now.places.now) activity }
    {
        let links = self.flow.links();
        let incoming = incoming(links, activity, |link| self.status(link)).unwrap();
        let text = self.flow.join(activity).unwrap();
        text.weigh_join(incoming.as_slice()).unwrap_or(false)
    }
}
