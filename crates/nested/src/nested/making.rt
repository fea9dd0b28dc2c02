ghost use Rattle.nested.specs.Nesting.{NestedMade};
ghost use Rattle.nested.specs.contracts.nested.calls.NestedPartner.TheImpl.{ghosts as nested_meaning};

use super::Nested;
use crate::refusal::NestedRefusal;
use flows::flow::Flow;
use partners::partner::Partner;
use partners::refusal::Refused;

impl<P: Partner> Nested<P> {
    /// A flow over this partner, whose answers are those of the result activity.
    pub fn new(flow: Flow, res: usize, below: P) -> Result<Nested<P>, Refused<NestedRefusal, P>>
        ensures { NestedMade P.Partner (nested_meaning P.row P.Partner) flow res below result }
    {
        if res >= flow.activity_count() {
            return Err(Refused {
                refusal: NestedRefusal::NoResult(res),
                partner: below,
            });
        }
        Ok(Nested {
            flow,
            result: res,
            below,
        })
    }
}
