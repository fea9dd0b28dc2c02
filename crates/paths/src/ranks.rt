ghost use Rattle.std.specs.Prelude.{◌≡◌, ◌≤◌, true, is_some, Decides};
ghost use Rattle.path_laws.specs.Free.{Free, LeastFree};
ghost use Rattle.path_laws.specs.Paths.{EndsBelow, NoCycle};
ghost use Rattle.path_laws.specs.Ranks.{OneOrder, OrderExists, PathsLeadForward, WorkedOut};
ghost use Rattle.paths.specs.Rankings.{RankAnswers};

use crate::marks::Marks;
use crate::order::Ranking;
use lists::BoundedList;
use parts::Link;
use pools::{ActivityNumber, Pool};

/// Whether an activity is not ranked, while the sources of all links into it are.
fn is_free(links: &[Link], ranked: &Marks, a: u8) -> bool
    ensures { Decides result (Free links.now ranked.now.marks a) }
{
    !ranked.has(a)
        && links
            .iter()
            .all(|link| link.target != a || ranked.has(link.source))
}

/// The least activity that is free.
fn least_free(links: &[Link], ranked: &Marks, count: u8) -> Option<u8>
    requires { count ≤ 32 }
    ensures { LeastFree links.now ranked.now.marks count result }
{
    // By the pool, as the project asks: what finds a least element is written and proved once, there.
    let mut places = [ActivityNumber(0); 32];
    let mut free = Pool::new(&mut places);
    for a in 0..count {
        if is_free(links, ranked, a) {
            // 32 places hold them all
            let _ = free.add(ActivityNumber(a));
        }
    }
    free.take_least().ok().map(|least| least.0)
}

/// The activities below `count` by rank: the least of those whose link sources are all ranked comes next.
#[tactic(auto, using(path_laws::proofs::Orders::worked_out, path_laws::proofs::NeverStuck::order_exists))]
pub fn rank(links: &[Link], count: usize) -> Option<Ranking>
    ensures answer { RankAnswers count links.now result }
    ensures some { count ≤ 32 → EndsBelow links.now count → NoCycle links.now count → is_some result ≡ true }
    ensures one { OneOrder count links.now }
    ensures exists { OrderExists count links.now }
    ensures forward { PathsLeadForward count links.now }
    ensures worked_out { WorkedOut count links.now }
{
    if count > 32 {
        return None;
    }
    let mut ranked = Marks::none();
    let mut order = BoundedList::new(0);
    for _ in 0..count {
        let next = least_free(links, &ranked, count as u8)?;
        ranked.add(next);
        order.push(next).ok()?;
    }
    Some(Ranking::new(order))
}
