//! What an activity comes to.

ghost use Rattle.std.specs.Prelude.{◌≡◌, ◌<◌, length};
ghost use Rattle.flows.specs.Flows.{flow_parts};
ghost use Rattle.evaluation_laws.specs.Evaluations.{ruled};
ghost use Rattle.evaluation.specs.Flows.{flow_plan, valuation_of, RuledOrBusy};

use super::Outcomes;
use evaluation_laws::Outcome;
use partners::partner::{Partner, Reply};
use values::container::Container;

impl Outcomes<'_> {
    /// What an activity comes to, where those that reach it have their outcomes, or none where the partner is busy.
    pub(crate) fn outcome<P: Partner>(&self, activity: usize, partner: &mut P) -> Option<Outcome>
        requires { activity < length (flow_parts self.now.flow.now).activities }
        ensures answers { P.Partner.answers partner.new ≡ P.Partner.answers partner.old }
        ensures outcome { RuledOrBusy (ruled (flow_plan self.now.flow.now) self.now.case.now (P.Partner.answers partner.old) (valuation_of self.now.places.now) activity) (P.Partner.busy partner.old) (P.Partner.busy partner.new) result }
    {
        if !self.join_holds(activity) {
            return Some(Outcome::Skipped);
        }
        let operation = self.flow.activities()[activity].operation;
        let input = self.input(activity);
        let mut output = Container::blank();
        match partner.call(operation, &input, &mut output) {
            Reply::Done => Some(Outcome::Completed(output)),
            Reply::Fault(fault) => Some(Outcome::Faulted(fault)),
            Reply::Busy => None,
        }
    }
}
