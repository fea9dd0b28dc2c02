ghost use Rattle.partners.specs.Layers.{RouterMade};
ghost use Rattle.partners.specs.contracts.router.calls.RouterPartner.TheImpl.{ghosts as router_meaning};

use super::Router;
use crate::partner::Partner;

impl<A: Partner, B: Partner> Router<A, B> {
    /// The border is any number, also one above every operation.
    pub fn new(border: u32, first: A, second: B) -> Router<A, B>
        ensures { RouterMade A.Partner B.Partner (λ wiring. router_meaning A.row B.row A.Partner wiring B.Partner wiring) border first second result }
    {
        Router {
            border,
            first,
            second,
        }
    }
}
