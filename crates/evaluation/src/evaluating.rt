ghost use Rattle.std.specs.Prelude.{◌≡◌};
ghost use Rattle.flows.specs.Flows.{flow_parts};
ghost use Rattle.plans.specs.Plans.{ByReadings};
ghost use Rattle.evaluation_laws.specs.Plans.{LooksBack};
ghost use Rattle.evaluation_laws.specs.Evaluations.{OneEvaluation, ByRank};
ghost use Rattle.evaluation.specs.Flows.{flow_plan};
ghost use Rattle.evaluation.specs.Evaluated.{Evaluates};

use crate::evaluated::Evaluated;
use crate::outcomes::Outcomes;
use evaluation_laws::Outcome;
use flows::flow::Flow;
use partners::partner::Partner;
use values::container::Container;

/// What a flow comes to on a case with this partner, or none where it is busy: the activities are treated by rank,
/// the partner is called once for each that is not skipped, and the first busy ends it.
pub fn evaluate<P: Partner>(flow: &Flow, case: &Container, partner: &mut P) -> Option<Evaluated>
    ensures answers { P.Partner.answers partner.new ≡ P.Partner.answers partner.old }
    ensures evaluated { Evaluates (flow_plan flow.now) case.now (P.Partner.answers partner.old) (P.Partner.busy partner.old) (P.Partner.busy partner.new) result }
    ensures one_evaluation { OneEvaluation (flow_plan flow.now) }
    ensures by_rank { ByRank (flow_plan flow.now) }
    ensures looks_back { LooksBack (flow_plan flow.now) }
    ensures by_readings { ByReadings (flow_parts flow.now) }
{
    let mut places = [Outcome::Skipped; 32];
    for activity in flow.by_rank() {
        let activity = usize::from(*activity);
        // A view for each activity, since the outcomes that it lends are written to after it.
        let outcomes = Outcomes {
            flow,
            case,
            places: &places,
        };
        places[activity] = outcomes.outcome(activity, partner)?;
    }
    let outcomes = Outcomes {
        flow,
        case,
        places: &places,
    };
    Some(Evaluated::new(&outcomes))
}
