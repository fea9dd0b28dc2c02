ghost use Rattle.std.specs.Prelude.{ℕ};
ghost use Rattle.partners.specs.Answers.{Answers};
ghost use Rattle.partners.specs.Calls.{Called};

use crate::fault::Fault;
use values::container::Container;

/// What a call of a partner comes back with.
// No Result: the output is in the caller's place, also after a fault, and busy is neither an output nor a fault.
#[derive(Clone, Copy, PartialEq, Eq, Debug)]
pub enum Reply {
    /// The output is in its place.
    Done,
    Fault(Fault),
    /// Not now; the same call may be made again.
    Busy,
}

/// What carries out operations. It means two things: its answers, one for each operation and input,
/// and how many busy answers it has left.
pub trait Partner {
    ghost answers: { Self → Answers };

    ghost busy: { Self → ℕ };

    // Three parameters and no struct of them: the output is lent, so a retry would have to make the struct anew for each try.
    fn call(&mut self, operation: u16, input: &Container, output: &mut Container) -> Reply
        ensures { Called (answers self.old) (answers self.new) (busy self.old) (busy self.new) operation input.now output.new result };
}

/// A partner that is lent is a partner.
impl<P: Partner> Partner for &mut P {
    ghost answers = { λ p. P.Partner.answers p.now };

    ghost busy = { λ p. P.Partner.busy p.now };

    fn call(&mut self, operation: u16, input: &Container, output: &mut Container) -> Reply {
        (**self).call(operation, input, output)
    }
}
