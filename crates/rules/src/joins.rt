ghost use Rattle.std.specs.Prelude.{◌≡◌, ℕ, ◌<◌, length};
ghost use Rattle.rules.specs.Joins.{LinksListed, StatusesBy};

use conditions::ground::Incoming;
use lists::BoundedList;
use parts::Link;

/// The links into an activity, in their order, each with the status that its number is given. Of at most 128 links there is always a list.
pub fn incoming<F: Fn(usize) -> bool>(
    links: &[Link],
    activity: usize,
    status: F,
) -> Option<BoundedList<Incoming, 128>>
    requires { (k : ℕ) → k < length links.now → F.pre status k }
    ensures links { LinksListed links.now activity result }
    ensures statuses { StatusesBy (F.post status) result }
{
    let mut list = BoundedList::new(Incoming {
        link: 0,
        status: false,
    });
    for (k, link) in links.iter().enumerate() {
        if usize::from(link.target) == activity {
            list.push(Incoming {
                link: u8::try_from(k).ok()?,
                status: status(k),
            })
            .ok()?;
        }
    }
    Some(list)
}
