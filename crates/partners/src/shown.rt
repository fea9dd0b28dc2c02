//! A fault is written as its code.

ghost use Rattle.std.specs.Prelude.{Some};
ghost use Rattle.std.specs.Fmt.{decimal};
ghost use Rattle.partners.specs.Answers.{fault_code};

use crate::fault::Fault;
use std::fmt;

impl fmt::Display for Fault {
    ghost output = { λ f. Some (decimal (fault_code f)) };

    fn fmt<W: fmt::Write>(&self, f: &mut fmt::Formatter<W>) -> fmt::Result {
        let code = self.code();
        write!(f, "{code}")
    }
}
