//! A predicate over fixed records becomes accepted code that selects records. `specs/Promise.antt` says
//! what the code does; it is proved of `compile_pred`.
#![tactic(auto)]

mod assembling;
mod compiling;
mod emitting;
#[cfg(test)]
mod tests;

pub use compiling::{PredErr, compile_pred};
