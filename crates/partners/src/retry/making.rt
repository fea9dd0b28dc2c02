ghost use Rattle.partners.specs.Layers.{RetryMade};
ghost use Rattle.partners.specs.contracts.retry.calls.RetryPartner.TheImpl.{ghosts as retry_meaning};

use super::Retry;
use crate::partner::Partner;
use crate::refusal::{LayerRefusal, Refused};

impl<P: Partner> Retry<P> {
    /// A retry over this partner, with 1 to 8 tries.
    pub fn new(below: P, tries: usize) -> Result<Retry<P>, Refused<LayerRefusal, P>>
        ensures { RetryMade P.Partner (retry_meaning P.row P.Partner) below tries result }
    {
        if (1..=8).contains(&tries) {
            Ok(Retry { below, tries })
        } else {
            Err(Refused {
                refusal: LayerRefusal::Tries(tries),
                partner: below,
            })
        }
    }
}
