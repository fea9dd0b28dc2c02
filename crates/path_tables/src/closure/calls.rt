ghost use Rattle.std.specs.Prelude.{◌≡◌, ◌≤◌};
ghost use Rattle.path_tables.specs.Reaching.{reached, ReachAnswers, EndPairs, LeastOnCycle};

use super::Reach;
use crate::pairs::ActivityPairs;
use parts::Link;

/// The ends of all links, or `None` where one is not below `count`.
#[tactic(auto, using(path_laws::proofs::Tables::collects_none, path_laws::proofs::Tables::collects_more, crate::proofs::Adding::pair_added, crate::proofs::Adding::linked_pairs))]
fn end_pairs(links: &[Link], count: usize) -> Option<ActivityPairs>
    requires { count ≤ 32 }
    ensures { EndPairs links.now count result }
{
    let mut pairs = ActivityPairs::none();
    for link in links {
        let Link { source, target } = *link;
        if usize::from(source) >= count || usize::from(target) >= count {
            return None;
        }
        pairs.add(source, target);
    }
    Some(pairs)
}

impl Reach {
    /// All paths of links among the activities below `count`, of which there are at most 32.
    #[tactic(auto, using(path_laws::proofs::Via::tabled_round))]
    pub fn of(links: &[Link], count: usize) -> Option<Reach>
        ensures { ReachAnswers links.now count result }
    {
        if count > 32 {
            return None;
        }
        let mut pairs = end_pairs(links, count)?;
        for k in 0..count as u8 {
            pairs.join_through(k, count);
        }
        Some(Reach { pairs })
    }

    /// Whether one or more links lead from one activity to another.
    pub fn reaches(&self, from: u8, to: u8) -> bool
        ensures { result ≡ reached self.now from to }
    {
        self.pairs.contains(from, to)
    }

    /// The least activity below `count` that reaches itself.
    pub fn least_on_cycle(&self, count: usize) -> Option<u8>
        ensures { LeastOnCycle self.now count result }
    {
        (0..count.min(32) as u8).find(|a| self.reaches(*a, *a))
    }
}
