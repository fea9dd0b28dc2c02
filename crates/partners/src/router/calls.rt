ghost use Rattle.std.specs.Prelude.{◌+◌};
ghost use Rattle.partners.specs.Layers.{routed};

use super::Router;
use crate::partner::{Partner, Reply};
use values::container::Container;

impl<A: Partner, B: Partner> Partner for Router<A, B> {
    ghost answers = { λ s. routed s.border (A.Partner.answers s.first) (B.Partner.answers s.second) };

    ghost busy = { λ s. A.Partner.busy s.first + B.Partner.busy s.second };

    fn call(&mut self, operation: u16, input: &Container, output: &mut Container) -> Reply {
        if u32::from(operation) < self.border {
            self.first.call(operation, input, output)
        } else {
            self.second.call(operation, input, output)
        }
    }
}
