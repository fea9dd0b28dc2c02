ghost use Rattle.std.specs.Prelude.{◌<◌, length};
ghost use Rattle.flows.specs.Flows.{flow_parts};

use flows::flow::Flow;

pub mod calls;
pub mod making;

/// A layer that answers every operation by its flow: the input is the case, and the result activity gives the answer.
#[derive(Drop)]
pub struct Nested<P> {
    flow: Flow,
    result: usize,
    below: P,
    ghost within: { result < length (flow_parts flow).activities },
}
