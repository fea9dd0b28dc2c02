ghost use Rattle.std.specs.Prelude.{◌≡◌, ◌≤◌, MatchOption};
ghost use Rattle.partners.specs.Answers.{fault_code};

use super::Fault;

impl Fault {
    /// The fault with this code, which is not 0.
    pub fn new(code: u16) -> Option<Fault>
        ensures { MatchOption result (code ≡ 0) (λ f. fault_code f ≡ code) }
    {
        if code == 0 {
            None
        } else {
            Some(Fault { code })
        }
    }

    pub fn code(self) -> u16
        ensures value { result ≡ fault_code self }
        ensures some { 1 ≤ result }
    {
        self.code
    }
}
