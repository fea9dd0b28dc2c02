ghost use Rattle.conditions.specs.Texts.{text_bytes, Checked};
ghost use Rattle.layout.specs.Drafts.{parts_of};
ghost use Rattle.rules.specs.declared.refusal.RuleRefusal.TheVariants.{BadText};
ghost use Rattle.rules.specs.Rules.{Clear, RulesChecked, kind_of_text};

use crate::joins::incoming;
use crate::refusal::RuleRefusal;
use conditions::text::Text;
use layout::Draft;
use tokens::fault::Fault;

/// Whether text i has no fault.
fn check_text(draft: &Draft, i: usize, text: Text) -> Result<(), Fault>
    ensures { Checked (kind_of_text (parts_of draft.now).links i) (text_bytes text) result }
{
    let links = draft.links();
    if i < links.len() {
        return text.check_transition();
    }
    let list = incoming(links, i - links.len(), |_| false).unwrap();
    text.check_join(list.as_slice())
}

pub(crate) fn check_texts(draft: &Draft) -> Result<(), RuleRefusal>
    requires { Clear (parts_of draft.now) (BadText 0 0) }
    ensures { RulesChecked (parts_of draft.now) result }
{
    for (i, text) in draft.texts().iter().enumerate() {
        check_text(draft, i, *text).map_err(|fault| RuleRefusal::BadText(
            i as u8,
            fault.place as u8,
        ))?;
    }
    Ok(())
}
