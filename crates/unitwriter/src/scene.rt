ghost use Rattle.std.specs.Prelude.{◌≡◌};

use sessions::{Roll, Session};
use trees::UnitTable;

// A session as it is shown: where to, and with the bytes that its values refer to.
#[derive(Clone, Copy)]
pub struct Scene<'s, 'a> {
    pub rt: &'s HostRuntime,
    pub pool: &'s [u8],
    pub session: &'s Session<'a>,
}

impl<'s, 'a> Scene<'s, 'a> {
    pub fn table(self) -> &'s UnitTable<'a>
        ensures { result.now ≡ self.entry.session.now.table }
    {
        &self.session.table
    }

    // The script's names of the entries.
    pub fn roll(self) -> Roll<'s>
        ensures { result.homes.now ≡ self.entry.session.now.ledger.homes.items }
    {
        self.session.ledger.roll()
    }
}
