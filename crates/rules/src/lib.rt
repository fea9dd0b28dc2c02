//! The rules of a definition, checked one after the other.

#![tactic(auto)]

ghost use Rattle.layout.specs.Drafts.{parts_of};
ghost use Rattle.rules.specs.Rules.{RulesChecked, OneRule};

use layout::Draft;

mod connectors;
mod joins;
mod links;
mod refusal;
mod shown;
mod texts;

pub use joins::incoming;
pub use refusal::RuleRefusal;

/// Whether a draft keeps all the rules: flags, then links one by one, cycles, connectors one by one, and texts.
#[tactic(auto, using(crate::proofs::Turns::one_rule))]
pub fn check(draft: &Draft) -> Result<(), RuleRefusal>
    ensures verdict { RulesChecked (parts_of draft.now) result }
    ensures one { OneRule (parts_of draft.now) }
{
    links::check_flags(draft)?;
    links::check_links(draft)?;
    links::check_cycles(draft)?;
    connectors::check_connectors(draft)?;
    texts::check_texts(draft)
}
