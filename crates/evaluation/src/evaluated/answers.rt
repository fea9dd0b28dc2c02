ghost use Rattle.std.specs.Prelude.{◌≡◌, false};
ghost use Rattle.layout.specs.Drafts.{ElementAt};
ghost use Rattle.evaluation_laws.specs.declared.Outcome.TheVariants.{Skipped};
ghost use Rattle.evaluation_laws.specs.Evaluations.{no_output};
ghost use Rattle.evaluation.specs.Evaluated.{outcomes_of, inputs_of, statuses_of};

use super::Evaluated;
use evaluation_laws::Outcome;
use values::container::Container;

impl Evaluated {
    /// What an activity came to.
    pub fn outcome(&self, activity: usize) -> Option<Outcome>
        ensures { ElementAt (λ o. o) Skipped (outcomes_of self.now) activity result }
    {
        self.activities
            .get(activity)
            .map(|evaluated| evaluated.outcome)
    }

    /// The input of an activity; eight blanks where it was skipped.
    pub fn input(&self, activity: usize) -> Option<Container>
        ensures { ElementAt (λ c. c) no_output (inputs_of self.now) activity result }
    {
        self.activities
            .get(activity)
            .map(|evaluated| evaluated.input)
    }

    pub fn status(&self, link: usize) -> Option<bool>
        ensures { ElementAt (λ s. s) false (statuses_of self.now) link result }
    {
        self.statuses.get(link)
    }

    /// The statuses of all links, in their order.
    pub fn statuses(&self) -> &[bool]
        ensures { result.now ≡ statuses_of self.now }
    {
        self.statuses.as_slice()
    }

    /// The sum of output field f7 over the completed activities.
    pub fn charge(&self) -> i64
        ensures { result ≡ self.now.charge }
    {
        self.charge
    }
}
