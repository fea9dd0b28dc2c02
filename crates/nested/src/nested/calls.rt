ghost use Rattle.std.specs.Prelude.{ℕ};
ghost use Rattle.partners.specs.Calls.{Said};
ghost use Rattle.nested.specs.Nesting.{handed_up, nested_answers};

use super::Nested;
use evaluation::evaluating::evaluate;
use evaluation_laws::Outcome;
use partners::fault::Fault;
use partners::partner::{Partner, Reply};
use values::container::Container;

/// The code of the fault where the result activity was skipped.
const SKIPPED: u16 = 2;

/// Hands up what the result activity came to.
fn hand_up(outcome: Outcome, output: &mut Container) -> Reply
    ensures { (before after : ℕ) → Said (handed_up outcome) before after output.new result }
{
    *output = outcome.output().copied().unwrap_or(Container::blank());
    match outcome {
        Outcome::Skipped => Reply::Fault(Fault::new(SKIPPED).unwrap()),
        Outcome::Completed(_) => Reply::Done,
        Outcome::Faulted(fault) => Reply::Fault(fault),
    }
}

impl<P: Partner> Partner for Nested<P> {
    ghost answers = { λ s. nested_answers s.flow s.result (P.Partner.answers s.below) };

    ghost busy = { λ s. P.Partner.busy s.below };

    fn call(&mut self, _operation: u16, input: &Container, output: &mut Container) -> Reply {
        *output = Container::blank();
        let Some(evaluated) = evaluate(&self.flow, input, &mut self.below) else {
            return Reply::Busy;
        };
        let outcome = evaluated.outcome(self.result).unwrap();
        hand_up(outcome, output)
    }
}
