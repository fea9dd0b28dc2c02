use evaluation_laws::Outcome;
use lists::BoundedList;
use values::container::Container;

pub mod answers;
pub mod making;

/// What an activity came to, and the input that it was given.
#[derive(Clone, Copy)]
struct EvaluatedActivity {
    outcome: Outcome,
    input: Container,
}

/// What a flow comes to: the outcomes and inputs of its activities, the statuses of its links, and the charge.
#[derive(Clone, Copy)]
pub struct Evaluated {
    activities: BoundedList<EvaluatedActivity, 32>,
    statuses: BoundedList<bool, 128>,
    charge: i64,
}
