//! Worked scripts, from the words of the program to what it prints. It has tests alone.
#![tactic(auto)]

#[cfg(test)]
mod bench_tests;
#[cfg(test)]
mod drive_tests;
#[cfg(test)]
mod fault_tests;
#[cfg(test)]
mod gate_tests;
#[cfg(test)]
mod image_tests;
#[cfg(test)]
mod predicate_tests;
#[cfg(test)]
mod refusal_tests;
#[cfg(test)]
mod reply_tests;
#[cfg(test)]
mod room_tests;
#[cfg(test)]
mod scan_tests;
#[cfg(test)]
mod scripts;
#[cfg(test)]
mod tests;
#[cfg(test)]
mod user_tests;
