ghost use Rattle.std.specs.Prelude.{◌≡◌, length};
ghost use Rattle.path_laws.specs.Ranks.{rank_order};
ghost use Rattle.paths.specs.Rankings.{order_of};
ghost use Rattle.rules.specs.Rules.{KeepsAll};
ghost use Rattle.flows.specs.Drafted.{drafted};

use layout::Draft;
use paths::Ranking;

pub mod elements;
pub mod reading;

/// What a definition defines, with its activities by rank. No flow breaks a rule; one that is fresh has no draft and so no activities.
#[derive(Clone, Copy)]
pub struct Flow {
    draft: Option<Draft>,
    ranking: Ranking,
    ghost keeps_all: { KeepsAll (drafted draft) },
    ghost ranked: { order_of ranking ≡ rank_order (length (drafted draft).activities) (drafted draft).links },
}
