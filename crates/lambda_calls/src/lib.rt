//! Calls with a function over a desk, from the request to the reply: memory for the call is found, room is made for it, it begins, gathers
//! its pages, runs and ends, at the host or in the drive.
//!
//! Among other passes a call waits for those that are in its way, and for a worker. By the only pass none is, the call serves its own job, and
//! it returns.
#![tactic(auto)]

mod kinds;
mod lambda;

pub use data_calls::{
    System, append_call, append_call_alone, read_call, read_call_alone, trunc_call,
    trunc_call_alone, write_call, write_call_alone,
};
pub use kinds::{read_lambda, read_lambda_alone, write_lambda, write_lambda_alone};
