ghost use Rattle.paths.specs.Cycles.{LeastOnCycle};

use crate::reach::reaches;
use parts::Link;

/// The least activity below `count` that reaches itself.
pub fn least_on_cycle(links: &[Link], count: usize) -> Option<u8>
    ensures { LeastOnCycle links.now count result }
{
    (0..=255).take(count).find(|a| reaches(links, *a, *a))
}
