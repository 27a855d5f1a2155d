#![tactic(auto)]

mod notes;
mod quota;
mod relocating;
mod room;

pub use quota::Quota;
pub use relocating::Relocating;
