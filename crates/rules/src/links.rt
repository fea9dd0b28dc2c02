ghost use Rattle.std.specs.Prelude.{◌≡◌};
ghost use Rattle.layout.specs.Drafts.{parts_of};
ghost use Rattle.rules.specs.declared.refusal.RuleRefusal.TheVariants.{NoEnd, Cycle, BadConnector};
ghost use Rattle.rules.specs.Rules.{Clear, Checks};

use crate::refusal::RuleRefusal;
use layout::Draft;
use paths::least_on_cycle;

pub(crate) fn check_flags(draft: &Draft) -> Result<(), RuleRefusal>
    ensures { Checks (parts_of draft.now) (NoEnd 0) result }
{
    draft
        .activities()
        .iter()
        .position(|activity| activity.flags != 0)
        .map_or(Ok(()), |i| Err(RuleRefusal::Flags(i)))
}

pub(crate) fn check_links(draft: &Draft) -> Result<(), RuleRefusal>
    requires { Clear (parts_of draft.now) (NoEnd 0) }
    ensures { Checks (parts_of draft.now) (Cycle 0) result }
{
    let count = draft.activity_count();
    let links = draft.links();
    for (i, link) in links.iter().enumerate() {
        if usize::from(link.source) >= count || usize::from(link.target) >= count {
            return Err(RuleRefusal::NoEnd(i));
        }
        if links[..i].contains(link) {
            return Err(RuleRefusal::Twice(i));
        }
    }
    Ok(())
}

pub(crate) fn check_cycles(draft: &Draft) -> Result<(), RuleRefusal>
    requires { Clear (parts_of draft.now) (Cycle 0) }
    ensures { Checks (parts_of draft.now) (BadConnector 0) result }
{
    least_on_cycle(draft.links(), draft.activity_count()).map_or(
        Ok(()),
        |activity| Err(RuleRefusal::Cycle(usize::from(activity))),
    )
}
