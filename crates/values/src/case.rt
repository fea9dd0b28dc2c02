ghost use Rattle.std.specs.Prelude.{◌≡◌, ℕ, Result};
ghost use Rattle.values.specs.declared.container.Container.{Container};
ghost use Rattle.values.specs.declared.case.refusal.CaseRefusal.{CaseRefusal};
ghost use Rattle.values.specs.Cases.{CaseRead, case_bytes};

use crate::container::Container;
use crate::field::{Field, FieldNumber};

pub mod refusal;

use refusal::CaseRefusal;

/// The container that 72 bytes hold: eight fields, each a tag and a signed value of eight bytes.
pub fn read_case(bytes: &[u8]) -> Result<Container, CaseRefusal>
    ensures verdict { CaseRead bytes.now result }
    ensures only_verdict { (q : Result Container CaseRefusal) → CaseRead bytes.now q → q ≡ result }
    ensures one_encoding { (c d : Container) → case_bytes c ≡ case_bytes d → c ≡ d }
{
    if bytes.len() != 72 {
        return Err(CaseRefusal::Length);
    }
    let mut fields = [Field::Blank; 8];
    let mut rest = bytes;
    // Not a `zip` with `chunks_exact(9)`: after a `zip` no proof knows what was written to the fields.
    for (k, field) in fields.iter_mut().enumerate() {
        let number = FieldNumber::at(k as u8);
        *field = Field::read(rest).ok_or(CaseRefusal::BadField(number))?;
        rest = &rest[9..];
    }
    Ok(Container::new(fields))
}
