ghost use Rattle.std.specs.Prelude.{◌≡◌};
ghost use Rattle.flows.specs.Refusals.{cause_of, place_of};
ghost use Rattle.flows.specs.declared.refusal.DefinitionRefusal.TheVariants.{Layout, Rule};

use layout::LayoutRefusal;
use refusals::Refusal;
use rules::RuleRefusal;

/// Why bytes are no definition.
#[derive(Clone, Copy, PartialEq, Eq, Debug)]
pub enum DefinitionRefusal {
    /// They have not the layout of a definition.
    Layout(LayoutRefusal),
    /// They have it, and break a rule.
    Rule(RuleRefusal),
}

impl Refusal for DefinitionRefusal {
    ghost cause_number = { cause_of };

    ghost place_number = { place_of };

    fn cause(&self) -> u16 {
        match self {
            DefinitionRefusal::Layout(refusal) => refusal.cause(),
            DefinitionRefusal::Rule(refusal) => refusal.cause(),
        }
    }

    fn place(&self) -> usize {
        match self {
            DefinitionRefusal::Layout(refusal) => refusal.place(),
            DefinitionRefusal::Rule(refusal) => refusal.place(),
        }
    }
}

impl From<LayoutRefusal> for DefinitionRefusal {
    ghost from_gives = { λ e r. r ≡ Layout e };

    fn from(refusal: LayoutRefusal) -> DefinitionRefusal {
        DefinitionRefusal::Layout(refusal)
    }
}

impl From<RuleRefusal> for DefinitionRefusal {
    ghost from_gives = { λ e r. r ≡ Rule e };

    fn from(refusal: RuleRefusal) -> DefinitionRefusal {
        DefinitionRefusal::Rule(refusal)
    }
}
