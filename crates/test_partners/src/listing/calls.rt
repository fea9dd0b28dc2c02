ghost use Rattle.partners.specs.Calls.{Called};
ghost use Rattle.test_partners.specs.Listings.{given_back, CallListed, OnlyListed};

use super::{Call, Listing};
use partners::partner::{Partner, Reply};
use values::container::Container;

impl Partner for Listing {
    ghost answers = { λ s. given_back s.fault };

    ghost busy = { λ s. s.busy };

    fn call(&mut self, operation: u16, input: &Container, output: &mut Container) -> Reply
        ensures called { Called (given_back self.old.fault) (given_back self.new.fault) self.old.busy self.new.busy operation input.now output.new result }
        ensures listed { CallListed self.old self.new operation input.now }
    {
        self.list(operation, input);
        *output = Container::blank();
        if self.busy > 0 {
            self.busy -= 1;
            return Reply::Busy;
        }
        if let Some(fault) = self.fault {
            return Reply::Fault(fault);
        }
        *output = *input;
        Reply::Done
    }
}

impl Listing {
    /// Lists the call, where there is a place for it, and counts it.
    fn list(&mut self, operation: u16, input: &Container)
        ensures { OnlyListed self.old self.new operation input.now }
    {
        let _ = self.calls.push(Call {
            operation,
            input: *input,
        });
        self.count = self.count.saturating_add(1);
    }
}
