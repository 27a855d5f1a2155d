#![tactic(auto)]

// A session: the calls of a script, performed on a table and shown.
pub mod apply;
pub mod ledger;
pub mod looks;
pub mod order;
mod perform;
pub mod reply;
pub mod roll;
pub mod session;
pub mod show;

pub use ledger::Ledger;
pub use looks::{attributes, children, events};
pub use order::{Answer, Order};
pub use reply::Reply;
pub use roll::Roll;
pub use session::Session;
pub use show::{Hex, Said, bytes_of};
