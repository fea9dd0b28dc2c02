ghost use Rattle.std.specs.Prelude.{◌≡◌, []};
ghost use Rattle.layout.specs.Drafts.{no_parts};
ghost use Rattle.layout.specs.Verdicts.{OneEncoding};
ghost use Rattle.flows.specs.Verdicts.{OneVerdict};
ghost use Rattle.flows.specs.Flows.{flow_parts, flow_order, DefinitionRead, ReadAsWritten};

use super::Flow;
use crate::refusal::DefinitionRefusal;
use layout::Draft;
use paths::rank;
use rules::check;

impl Flow {
    /// A flow without activities.
    pub fn fresh() -> Flow
        ensures parts { flow_parts result ≡ no_parts }
        ensures order { flow_order result ≡ [] }
    {
        let ranking = rank(&[], 0).unwrap();
        Flow {
            draft: None,
            ranking,
        }
    }

    /// Replaces the flow by the one that the bytes define.
    pub fn read(&mut self, bytes: &[u8]) -> Result<(), DefinitionRefusal>
        ensures verdict { DefinitionRead bytes.now self.old result self.new }
        ensures read_as_written { ReadAsWritten bytes.now result self.new }
        ensures one_verdict { OneVerdict bytes.now }
        ensures one_encoding { OneEncoding }
    {
        let draft = Draft::read(bytes)?;
        check(&draft)?;
        let ranking = rank(draft.links(), draft.activity_count()).unwrap();
        *self = Flow {
            draft: Some(draft),
            ranking,
        };
        Ok(())
    }
}
