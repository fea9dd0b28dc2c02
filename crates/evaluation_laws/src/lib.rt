//! What a flow comes to, over an abstract plan: there is one evaluation, and treating activities by rank computes it.

#![tactic(auto)]

ghost use Rattle.std.specs.Prelude.{◌≡◌};
ghost use Rattle.std.specs.Option.{option_copied};
ghost use Rattle.evaluation_laws.specs.Evaluations.{given_output};

use partners::fault::Fault;
use values::container::Container;

mod shown;

/// What an activity comes to.
#[derive(Clone, Copy, PartialEq, Eq, Debug)]
pub enum Outcome {
    Skipped,
    /// With its output.
    Completed(Container),
    Faulted(Fault),
}

impl Outcome {
    /// The output, where the activity completed.
    pub fn output(&self) -> Option<&Container>
        ensures { option_copied result ≡ given_output self.now }
    {
        match self {
            Outcome::Completed(output) => Some(output),
            Outcome::Skipped | Outcome::Faulted(_) => None,
        }
    }
}
