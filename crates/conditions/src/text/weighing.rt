//! Checking and weighing a text.

ghost use Rattle.grammar.specs.Grammar.{transition, join};
ghost use Rattle.tokens.specs.Tokens.{TokensOf};
ghost use Rattle.conditions.specs.Texts.{text_bytes, Weighed, Checked, OneReading, OneVerdict};
ghost use Rattle.conditions.specs.Values.{kind_of, tests_of, links_of, over_output, over_statuses};

use super::Text;
use crate::ground::{Ground, Incoming};
use crate::parser::Parser;
use crate::truth::is_true;
use tokens::fault::Fault;
use values::container::Container;

fn weigh<'a>(text: &'a [u8], ground: Ground<'a>) -> Result<bool, Fault>
    ensures { Weighed (kind_of ground.entry) (tests_of ground.entry) text.now result }
{
    let mut parser = Parser::new(text, ground);
    let value = parser.condition()?;
    parser.end()?;
    Ok(is_true(value))
}

// A call for each kind of text, over the one `weigh`: one call for both would ask each caller for a `Ground`,
// and a check of a transition text, which needs no container, for an output that nobody has.
impl Text {
    /// Whether the transition text holds over the output of the link's source.
    pub fn weigh_transition(&self, output: &Container) -> Result<bool, Fault>
        ensures { Weighed transition (over_output output.now) (text_bytes self.now) result }
    {
        weigh(self.as_bytes(), Ground::Transition(*output))
    }

    /// Whether the join text holds over the statuses of the incoming links.
    pub fn weigh_join<'a>(&'a self, incoming: &'a [Incoming]) -> Result<bool, Fault>
        ensures { Weighed (join (links_of incoming.now)) (over_statuses incoming.now) (text_bytes self.now) result }
    {
        weigh(self.as_bytes(), Ground::Join(incoming))
    }

    /// Whether the bytes are a transition text.
    #[tactic(auto, using(crate::proofs::Whole::one_reading, crate::proofs::Whole::one_verdict))]
    pub fn check_transition(&self) -> Result<(), Fault>
        ensures verdict { Checked transition (text_bytes self.now) result }
        ensures one_reading { OneReading (text_bytes self.now) }
        ensures one_verdict { OneVerdict (text_bytes self.now) }
        ensures tokens { TokensOf (text_bytes self.now) }
    {
        self.weigh_transition(&Container::blank())?;
        Ok(())
    }

    /// Whether the bytes are a join text of an activity with these incoming links.
    #[tactic(auto, using(crate::proofs::Whole::one_reading, crate::proofs::Whole::one_verdict))]
    pub fn check_join<'a>(&'a self, incoming: &'a [Incoming]) -> Result<(), Fault>
        ensures verdict { Checked (join (links_of incoming.now)) (text_bytes self.now) result }
        ensures one_reading { OneReading (text_bytes self.now) }
        ensures one_verdict { OneVerdict (text_bytes self.now) }
        ensures tokens { TokensOf (text_bytes self.now) }
    {
        self.weigh_join(incoming)?;
        Ok(())
    }
}
