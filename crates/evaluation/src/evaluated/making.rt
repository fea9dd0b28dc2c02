ghost use Rattle.std.specs.Prelude.{◌≡◌, ◌≤◌, map, length};
ghost use Rattle.std.specs.List.{range_with_len};
ghost use Rattle.lists.specs.Lists.{items};
ghost use Rattle.flows.specs.Flows.{flow_parts};
ghost use Rattle.values.specs.Amounts.{InRange};
ghost use Rattle.evaluation_laws.specs.Evaluations.{statuses, charge_below, charged};
ghost use Rattle.evaluation.specs.Flows.{flow_plan, valuation_of};
ghost use Rattle.evaluation.specs.Evaluated.{Tells, evaluated_activity};

use super::{Evaluated, EvaluatedActivity};
use crate::outcomes::Outcomes;
use evaluation_laws::Outcome;
use lists::BoundedList;
use values::container::Container;
use values::field::Field;

fn all_activities(outcomes: &Outcomes) -> BoundedList<EvaluatedActivity, 32>
    ensures { items result ≡ map (evaluated_activity (flow_plan outcomes.now.flow.now) outcomes.now.case.now (valuation_of outcomes.now.places.now)) (range_with_len 0 (length (flow_parts outcomes.now.flow.now).activities)) }
{
    let mut activities = BoundedList::new(EvaluatedActivity {
        outcome: Outcome::Skipped,
        input: Container::blank(),
    });
    let places = outcomes.places;
    let treated = &places[..outcomes.flow.activity_count()];
    for (activity, outcome) in treated.iter().enumerate() {
        let evaluated = EvaluatedActivity {
            outcome: *outcome,
            input: outcomes.given(activity),
        };
        activities.push(evaluated).unwrap();
    }
    activities
}

fn all_statuses(outcomes: &Outcomes) -> BoundedList<bool, 128>
    ensures { items result ≡ map (statuses (flow_plan outcomes.now.flow.now) (valuation_of outcomes.now.places.now)) (range_with_len 0 (length (flow_parts outcomes.now.flow.now).links)) }
{
    let mut statuses = BoundedList::new(false);
    for link in 0..outcomes.flow.link_count() {
        statuses.push(outcomes.status(link)).unwrap();
    }
    statuses
}

/// What an activity with this outcome adds to the charge.
fn added(outcome: &Outcome) -> i64
    ensures value { result ≡ charged outcome.now }
    ensures range { InRange result }
{
    let Some(output) = outcome.output() else {
        return 0;
    };
    let fields = output.fields();
    match &fields[7] {
        Field::Blank => 0,
        Field::Number(amount) => amount.get(),
    }
}

fn sum(outcomes: &[Outcome]) -> i64
    requires { length outcomes.now ≤ 32 }
    ensures { result ≡ charge_below (length outcomes.now) (valuation_of outcomes.now) }
{
    let mut sum = 0;
    for outcome in outcomes {
        sum += added(outcome);
    }
    sum
}

impl Evaluated {
    /// The evaluation with these outcomes.
    pub(crate) fn new(outcomes: &Outcomes) -> Evaluated
        ensures { Tells (flow_plan outcomes.now.flow.now) outcomes.now.case.now (valuation_of outcomes.now.places.now) result }
    {
        let places = outcomes.places;
        Evaluated {
            activities: all_activities(outcomes),
            statuses: all_statuses(outcomes),
            charge: sum(&places[..outcomes.flow.activity_count()]),
        }
    }
}
