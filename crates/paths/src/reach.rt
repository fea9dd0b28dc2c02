ghost use Rattle.std.specs.Prelude.{◌≡◌, ◌<◌, length, Decides, MatchBool};
ghost use Rattle.path_laws.specs.Marks.{unmarked};
ghost use Rattle.path_laws.specs.Paths.{Reaches};
ghost use Rattle.path_laws.specs.Spread.{Sound, StartOrMarked, Closed};

use crate::marks::Marks;
use parts::Link;

fn start_or_marked(reached: &Marks, from: u8, a: u8) -> bool
    ensures { Decides result (StartOrMarked reached.now.marks from a) }
{
    a == from || reached.has(a)
}

/// Marks the target of each link from the start or from a marked activity, and answers whether there
/// was one to mark.
#[tactic(auto, using(path_laws::proofs::Spread::turn_passes, path_laws::proofs::Spread::turn_marks))]
fn spread(links: &[Link], from: u8, reached: &mut Marks) -> bool
    requires { Sound links.now from reached.old.marks }
    ensures sound { Sound links.now from reached.new.marks }
    ensures more { MatchBool result (unmarked reached.new.marks < unmarked reached.old.marks) ((reached.new.marks ≡ reached.old.marks) × Closed links.now from reached.new.marks (length links.now)) }
{
    let mut more = false;
    for link in links {
        let Link { source, target } = *link;
        if !reached.has(target) && start_or_marked(reached, from, source) {
            reached.add(target);
            more = true;
        }
    }
    more
}

/// Whether one or more links lead from one activity to another.
#[tactic(auto, using(path_laws::proofs::Spread::closed_marks))]
pub fn reaches(links: &[Link], from: u8, to: u8) -> bool
    ensures { Decides result (Reaches links.now from to) }
{
    let mut reached = Marks::none();
    while spread(links, from, &mut reached) {}
    reached.has(to)
}
