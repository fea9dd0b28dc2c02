ghost use Rattle.std.specs.Prelude.{◌≡◌, ◌<◌, MatchOption};
ghost use Rattle.partners.specs.Answers.{fault_code};
ghost use Rattle.tables.specs.Layout.{outcome_bytes};
ghost use Rattle.tables.specs.Records.{Reads};

use super::RowFault;
use crate::numbers::all_zero;
use crate::outputs::Outputs;
use partners::fault::Fault;

impl RowFault {
    fn new(code: u16) -> Option<RowFault>
        ensures { MatchOption result (code < 10) (λ f. fault_code f.fault ≡ code) }
    {
        if code < 10 {
            return None;
        }
        let fault = Fault::new(code)?;
        Some(RowFault { fault })
    }

    pub fn fault(self) -> Fault
        ensures { result ≡ self.fault }
    {
        self.fault
    }
}

/// The outcome that has exactly these bytes: outputs or a fault.
pub(crate) fn read_outcome(bytes: &[u8; 74]) -> Option<Result<Outputs, RowFault>>
    ensures { Reads outcome_bytes bytes.now result }
{
    let code = u16::from_le_bytes(*bytes.first_chunk()?);
    let outputs = bytes.last_chunk()?;
    if code == 0 {
        return Some(Ok(Outputs::read(outputs)?));
    }
    if !all_zero(outputs) {
        return None;
    }
    Some(Err(RowFault::new(code)?))
}
