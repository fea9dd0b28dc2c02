ghost use Rattle.std.specs.Prelude.{◌≡◌, ℕ, ◌<◌, ◌≤◌, length, replicate, slice_set};
ghost use Rattle.std.specs.List.{flat_map};
ghost use Rattle.values.specs.declared.field.Field.TheVariants.{Blank};
ghost use Rattle.values.specs.Layout.{field_at, field_bytes};
ghost use Rattle.values.specs.Cases.{slot, case_bytes};

use super::Container;
use crate::field::{Field, FieldNumber};

impl Container {
    pub fn new(fields: [Field; 8]) -> Container
        ensures { result.fields ≡ fields }
    {
        Container { fields }
    }

    /// Eight blanks.
    pub fn blank() -> Container
        ensures { result.fields ≡ replicate 8 Blank }
    {
        Container {
            fields: [Field::Blank; 8],
        }
    }

    pub fn fields(&self) -> [Field; 8]
        ensures value { result ≡ self.now.fields }
        ensures bytes { case_bytes self.now ≡ flat_map field_bytes result }
    {
        self.fields
    }

    pub fn field(&self, number: FieldNumber) -> Field
        ensures value { result ≡ field_at self.now number.number }
        ensures bytes { slot 9 (case_bytes self.now) number.number ≡ field_bytes result }
    {
        self.fields[number.get() as usize]
    }

    pub fn set(&mut self, number: FieldNumber, field: Field)
        ensures { self.new.fields ≡ slice_set self.old.fields number.number field }
    {
        let k = number.get() as usize;
        self.fields[k] = field;
    }
}
