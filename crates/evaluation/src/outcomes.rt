ghost use Rattle.std.specs.Prelude.{◌≡◌, length};

use evaluation_laws::Outcome;
use flows::flow::Flow;
use values::container::Container;

mod inputs;
mod joins;
mod treating;

/// What the activities of a flow have come to so far, on a case: those that are not treated yet count as skipped.
#[derive(Clone, Copy)]
pub(crate) struct Outcomes<'a> {
    pub(crate) flow: &'a Flow,
    pub(crate) case: &'a Container,
    pub(crate) places: &'a [Outcome; 32],
    ghost all_places: { length places.now ≡ 32 },
}
