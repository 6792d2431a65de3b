//! Commands.

use crate::options::{Crew, Setup};
use crate::params::Param;
use crate::pieces::Pieces;
use crate::places::Width;
use edge_io::Text;
use page_base::Geometry;

/// A command that neither waits nor starts threads, with its words in their order.
#[derive(Drop)]
pub enum Quiet {
    /// `mkimage OUT BLOCKS DIES`
    MakeImage {
        out: Text,
        geometry: Geometry,
    },
    /// `asm SRC OUT`
    Asm {
        source: Text,
        out: Text,
    },
    /// `disasm OBJ`
    Disasm {
        object: Text,
    },
    /// `verify OBJ`
    Verify {
        object: Text,
    },
    /// `check IMAGE SCRIPT TRANSCRIPT`
    Check {
        image: Text,
        script: Text,
        transcript: Text,
    },
    /// `solo IMAGE SCRIPT OUT` and options
    Solo {
        image: Text,
        script: Text,
        out: Text,
        setup: Setup,
    },
    /// `bench START CALLS`
    Bench {
        start: u64,
        calls: u32,
    },
    /// `elf OBJ SECTION OUT`
    Elf {
        object: Text,
        section: Text,
        out: Text,
    },
    /// `predc PRED WIDTH OUT`
    CompilePred {
        pred: Text,
        width: Width,
        out: Text,
    },
    /// `select IMAGE FILE PRED WIDTH`
    Select {
        image: Text,
        file: Text,
        pred: Text,
        width: Width,
    },
}

/// `scan IMAGE FILE OBJ CHUNK FUEL CAP PARAM`
#[derive(Drop)]
pub struct Scan {
    pub image: Text,
    pub file: Text,
    pub object: Text,
    pub pieces: Pieces,
    pub param: Param,
}

/// `run IMAGE SCRIPT OUT` and options
#[derive(Drop)]
pub struct Run {
    pub image: Text,
    pub script: Text,
    pub out: Text,
    pub setup: Setup,
    pub crew: Crew,
}

/// What the words ask for.
#[derive(Drop)]
pub enum Command {
    /// A command that neither waits nor starts threads.
    Quiet(Quiet),
    /// A function over all pieces of a file, in parallel.
    Scan(Scan),
    /// The calls of a script, a thread for each lane.
    Run(Run),
}
