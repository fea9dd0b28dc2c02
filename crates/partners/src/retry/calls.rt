ghost use Rattle.partners.specs.Layers.{retry_busy};

use super::Retry;
use crate::partner::{Partner, Reply};
use values::container::Container;

impl<P: Partner> Partner for Retry<P> {
    ghost answers = { λ s. P.Partner.answers s.below };

    ghost busy = { λ s. retry_busy s.tries (P.Partner.busy s.below) };

    fn call(&mut self, operation: u16, input: &Container, output: &mut Container) -> Reply {
        for _ in 0..self.tries {
            match self.below.call(operation, input, output) {
                Reply::Busy => {}
                reply => return reply,
            }
        }
        Reply::Busy
    }
}
