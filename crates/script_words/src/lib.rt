//! What scripts and transcripts are written in: lines, words, numbers and bytes as text, and lanes by their names.
#![tactic(auto)]

mod lanes;
mod lexing;
mod script;
mod values;

pub use lanes::{cut_point, place_of};
pub use lexing::{cut_word, ends_with_colon, is_line, lines, without_last, words};
pub use script::{FaultLine, Lane, Script};
pub use values::{
    bytes_of, bytes_size, code_of, code_size, hex_of, is_digit, is_lane, lane_of, number_in,
    value_of,
};
