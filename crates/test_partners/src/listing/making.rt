ghost use Rattle.std.specs.Prelude.{◌≡◌, ◌≤◌, MatchOption};
ghost use Rattle.test_partners.specs.Listings.{ListingMade, CallAt};
ghost use Rattle.test_partners.specs.contracts.listing.calls.ListingPartner.TheImpl.{ghosts as listing_meaning};

use super::{Call, Listing};
use lists::BoundedList;
use partners::fault::Fault;
use values::container::Container;

impl Listing {
    /// A partner that is busy so many times first.
    pub fn new(busy: usize, fault: Option<Fault>) -> Listing
        ensures { ListingMade listing_meaning busy fault result }
    {
        let none = Call {
            operation: 0,
            input: Container::blank(),
        };
        Listing {
            calls: BoundedList::new(none),
            count: 0,
            busy,
            fault,
        }
    }

    /// How many calls came.
    pub fn count(&self) -> usize
        ensures { result ≡ self.now.count }
    {
        self.count
    }

    /// Call number k, where it came and is listed.
    pub fn listed(&self, k: usize) -> Option<Call>
        ensures { CallAt self.now k result }
    {
        self.calls.get(k)
    }
}
