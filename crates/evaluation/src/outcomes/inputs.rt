//! The outputs of activities, and inputs put together from them.

ghost use Rattle.std.specs.Prelude.{◌≡◌, ℕ, ◌<◌, length};
ghost use Rattle.flows.specs.Flows.{flow_parts};
ghost use Rattle.rules.specs.Rules.{Named};
ghost use Rattle.plans.specs.Plans.{taken_field};
ghost use Rattle.evaluation_laws.specs.Plans.{Plan};
ghost use Rattle.evaluation_laws.specs.Evaluations.{outputs, input_of};
ghost use Rattle.evaluation.specs.Flows.{flow_plan, valuation_of};
ghost use Rattle.evaluation.specs.Evaluated.{given_input};

use super::Outcomes;
use evaluation_laws::Outcome;
use parts::{Connector, ConnectorKind};
use values::container::Container;
use values::field::{Field, FieldNumber};

impl Outcomes<'_> {
    /// The output of an activity: eight blanks, unless it completed.
    fn output(&self, activity: usize) -> Container
        requires { activity < 32 }
        ensures { (p : Plan) → result ≡ outputs p (valuation_of self.now.places.now) activity }
    {
        let places = self.places;
        let output = places[activity].output();
        output.copied().unwrap_or(Container::blank())
    }

    /// What a connector takes: a field of the case, or of the output of its source.
    fn taken(&self, connector: &Connector) -> Field
        requires { Named (length (flow_parts self.now.flow.now).activities) connector.now }
        ensures { (p : Plan) → result ≡ taken_field connector.now self.now.case.now (outputs p (valuation_of self.now.places.now)) }
    {
        let from = FieldNumber::new(connector.source_field).unwrap();
        match ConnectorKind::try_from(connector.kind).unwrap() {
            ConnectorKind::Case => self.case.field(from),
            ConnectorKind::Output => self.output(usize::from(connector.source)).field(from),
        }
    }

    /// The input of an activity, put together by the connectors that lead to it, where what these take is there.
    pub(crate) fn input(&self, activity: usize) -> Container
        ensures { result ≡ input_of (flow_plan self.now.flow.now) self.now.case.now (valuation_of self.now.places.now) activity }
    {
        let mut input = Container::blank();
        for connector in self.flow.connectors().iter().rev() {
            if usize::from(connector.target) == activity {
                let to = FieldNumber::new(connector.target_field).unwrap();
                input.set(to, self.taken(connector));
            }
        }
        input
    }

    /// The input that an activity was given: eight blanks where it was skipped.
    pub(crate) fn given(&self, activity: usize) -> Container
        requires { activity < 32 }
        ensures { result ≡ given_input (flow_plan self.now.flow.now) self.now.case.now (valuation_of self.now.places.now) activity }
    {
        let places = self.places;
        match &places[activity] {
            Outcome::Skipped => Container::blank(),
            Outcome::Completed(_) | Outcome::Faulted(_) => self.input(activity),
        }
    }
}
