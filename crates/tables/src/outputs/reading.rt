ghost use Rattle.std.specs.Prelude.{◌≡◌, replicate};
ghost use Rattle.values.specs.declared.field.Field.TheVariants.{Blank};
ghost use Rattle.tables.specs.declared.source.Source.TheVariants.{Given};
ghost use Rattle.tables.specs.Layout.{outputs_bytes};
ghost use Rattle.tables.specs.Records.{Reads};
ghost use Rattle.tables.specs.Answers.{output_over};

use super::Outputs;
use crate::records::read_records;
use crate::source::Source;
use lists::BoundedList;
use values::container::Container;
use values::field::Field;

const BLANK: Source = Source::Given(Field::Blank);

impl Outputs {
    /// Eight blanks.
    pub(crate) fn blank() -> Outputs
        ensures { result.sources ≡ replicate 8 (Given Blank) }
    {
        Outputs {
            sources: [BLANK; 8],
        }
    }

    /// The outputs that have exactly these bytes.
    pub(crate) fn read(bytes: &[u8; 72]) -> Option<Outputs>
        ensures { Reads outputs_bytes bytes.now result }
    {
        let mut listed = BoundedList::<Source, 8>::new(BLANK);
        read_records(bytes, &mut listed).ok()?;
        let sources = <[Source; 8]>::try_from(listed.as_slice()).unwrap();
        Some(Outputs { sources })
    }

    /// The output that they make over this input.
    pub fn over(&self, input: &Container) -> Container
        ensures { result ≡ output_over input.now self.now }
    {
        Container::new(self.sources.map(|source| source.over(input)))
    }
}
