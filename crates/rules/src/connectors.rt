ghost use Rattle.std.specs.Prelude.{◌≡◌, Decides};
ghost use Rattle.layout.specs.Drafts.{parts_of};
ghost use Rattle.path_laws.specs.Paths.{Reaches};
ghost use Rattle.rules.specs.declared.refusal.RuleRefusal.TheVariants.{BadConnector, BadText};
ghost use Rattle.rules.specs.Rules.{Clear, Checks, Sourced, Named, TakenIn};

use crate::refusal::RuleRefusal;
use layout::Draft;
use parts::{Connector, ConnectorKind, Link};
use paths::reaches;

/// A field of the case, whose source is 0, or a field of an activity's output.
fn is_sourced(connector: Connector, count: usize) -> bool
    ensures { Decides result (Sourced count connector) }
{
    match ConnectorKind::try_from(connector.kind) {
        Ok(ConnectorKind::Case) => connector.source == 0,
        Ok(ConnectorKind::Output) => usize::from(connector.source) < count,
        Err(_) => false,
    }
}

fn is_named(connector: Connector, count: usize) -> bool
    ensures { Decides result (Named count connector) }
{
    usize::from(connector.target) < count
        && connector.target_field < 8
        && connector.source_field < 8
        && is_sourced(connector, count)
}

/// Whether one of the earlier connectors has the target activity and field of a connector.
fn taken_before(earlier: &[Connector], connector: &Connector) -> bool
    ensures { Decides result (TakenIn earlier.now connector.now) }
{
    earlier.iter().any(|e| {
        e.target == connector.target && e.target_field == connector.target_field
    })
}

/// Whether a connector takes the output of an activity that does not reach its target.
fn lacks_path(links: &[Link], connector: Connector) -> bool
    ensures { Decides result ((connector.kind ≡ 2) × (Reaches links.now connector.source connector.target → ⊥)) }
{
    ConnectorKind::try_from(connector.kind) == Ok(ConnectorKind::Output)
        && !reaches(links, connector.source, connector.target)
}

pub(crate) fn check_connectors(draft: &Draft) -> Result<(), RuleRefusal>
    requires { Clear (parts_of draft.now) (BadConnector 0) }
    ensures { Checks (parts_of draft.now) (BadText 0 0) result }
{
    let count = draft.activity_count();
    let connectors = draft.connectors();
    for (i, connector) in connectors.iter().enumerate() {
        if !is_named(*connector, count) || taken_before(&connectors[..i], connector) {
            return Err(RuleRefusal::BadConnector(i));
        }
        if lacks_path(draft.links(), *connector) {
            return Err(RuleRefusal::NoPath(i));
        }
    }
    Ok(())
}
