//! The calls that need no page, each one event: `create`, `open`, `stat`, `remove`, `seal`, `load` and `unload`.
#![tactic(auto)]

mod answering;
mod calls;
mod files;
mod functions;
mod holders;
mod quick;
mod removing;

pub use functions::Loading;
pub use quick::try_quick;
pub use system_begin::{Begun, try_begin};
