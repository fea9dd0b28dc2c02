ghost use Rattle.std.specs.Prelude.{◌≡◌, true, false, length, replicate, slice_set};
ghost use Rattle.path_laws.specs.Marks.{marked};

/// Marks on the numbers that a byte can hold.
#[derive(Drop)]
pub(crate) struct Marks {
    marks: [bool; 256],
    ghost places: { length marks ≡ 256 },
}

impl Marks {
    /// No number has a mark.
    pub(crate) fn none() -> Marks
        ensures { result.marks ≡ replicate 256 false }
    {
        Marks {
            marks: [false; 256],
        }
    }

    pub(crate) fn has(&self, number: u8) -> bool
        ensures { result ≡ marked self.now.marks number }
    {
        self.marks[usize::from(number)]
    }

    pub(crate) fn add(&mut self, number: u8)
        ensures { self.new.marks ≡ slice_set self.old.marks number true }
    {
        self.marks[usize::from(number)] = true;
    }
}
