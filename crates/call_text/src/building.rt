//! A script of which some lines are read.
use crate::blocks::Blocks;
use script_words::{FaultLine, Lane};

// The call that the next call of a lane waits for.
#[derive(Clone, Copy)]
pub struct Await {
    pub lane: u32,
    pub call: (u32, u32),
}

// What the lines so far have given. Of a block that is open: its line, its name, and its lines, each with its end.
#[derive(Drop)]
pub struct Building {
    pub lanes: Vec<Lane>,
    pub order: Vec<(u32, u32)>,
    pub faults: Vec<FaultLine>,
    pub awaits: Vec<Await>,
    pub blocks: Blocks,
    pub bytes: u64,
    pub block: Option<u32>,
    pub name: Vec<u8>,
    pub text: Vec<u8>,
}
