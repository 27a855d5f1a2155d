ghost use Rattle.std.specs.Prelude.{◌≡◌};
ghost use Rattle.trees.specs.Model.{number_of};

use crate::records::EditFault;

impl EditFault {
    // The number of the refusal.
    pub fn number(self) -> u8
        ensures { result ≡ number_of self }
    {
        self as u8
    }
}
