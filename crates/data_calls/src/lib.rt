//! Data calls without a function over a desk, from the request to the reply: memory for the call is found, room is made for it, it begins,
//! gathers its pages and ends.
//!
//! Among other passes a call waits for those that are in its way. By the only pass none is, and it returns.
#![tactic(auto)]

mod data;
mod kinds;

pub use call_starts::{
    Beginning, System, begin_call, begin_call_alone, skip_call, skip_call_alone,
};
pub use kinds::{
    append_call, append_call_alone, read_call, read_call_alone, trunc_call, trunc_call_alone,
    write_call, write_call_alone,
};
pub use lambda_finishes::{
    finish_at_drive, finish_at_drive_alone, finish_at_host, finish_at_host_alone,
};
