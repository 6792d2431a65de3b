//! The tables of a system that has just begun, which have neither its dies nor its jobs. They are made a few at a time.
ghost use Rattle.std.specs.Prelude.{◌≡◌, ◌≤◌, IfOk};
ghost use Rattle.image_format.specs.Tables.{IsOneSize};
ghost use Rattle.system_start.specs.Fresh.{AreNewBlocks, AreNewRows, AreNewLists, AreFresh};

use crate::parts::{new_pair, nones};
use coherence::Pair;
use image_format::Meta;
use index_lists::Links;
use page_base::NoMemory;
use range_locks::Ranges;
use std::alloc::Global;
use system_state::{Call, Function, Lane, Stage};

/// What there is for each block.
#[derive(Drop)]
pub(crate) struct Blocks {
    pub pair: Pair,
    pub pins: Vec<u32>,
}

/// What there is for each lane.
#[derive(Drop)]
pub(crate) struct Rows {
    pub lanes: Vec<Lane>,
    pub calls: Vec<Option<Call>>,
}

/// The functions, what is locked, and the queue.
#[derive(Drop)]
pub(crate) struct Lists {
    pub functions: Vec<Function>,
    pub ranges: Ranges,
    pub queue: Links,
}

/// The tables that take memory.
#[derive(Drop)]
pub(crate) struct Tables {
    pub blocks: Blocks,
    pub rows: Rows,
    pub lists: Lists,
}

fn new_blocks(alloc: Global, meta: &Meta) -> Result<Blocks, NoMemory>
    requires { IsOneSize meta.now }
    ensures { IfOk result (λ t. AreNewBlocks meta.now t) }
{
    let pair = new_pair(alloc, meta)?;
    let pins = vec![in alloc; 0; meta.geometry.blocks() as usize]?;
    Ok(Blocks { pair, pins })
}

fn new_rows(alloc: Global, lanes: u32) -> Result<Rows, NoMemory>
    ensures { IfOk result (λ t. AreNewRows lanes t) }
{
    let row = Lane {
        stage: Stage::Outside,
        ended: 0,
        mark: false,
    };
    let rows = vec![in alloc; row; lanes as usize]?;
    let calls = nones(alloc, lanes)?;
    Ok(Rows { lanes: rows, calls })
}

fn new_lists(alloc: Global, lanes: u32) -> Result<Lists, NoMemory>
    requires { lanes ≤ 32 }
    ensures { IfOk result (λ t. AreNewLists lanes t) }
{
    let functions = Vec::with_capacity(alloc, 64)?;
    let ranges = Ranges::new(alloc, lanes, 4096)?;
    let queue = Links::with_lists(alloc, lanes.max(1), 1)?;
    Ok(Lists {
        functions,
        ranges,
        queue,
    })
}

// The tables before any event.
pub(crate) fn new_tables(alloc: Global, meta: &Meta, lanes: u32) -> Result<Tables, NoMemory>
    requires size { IsOneSize meta.now }
    requires few { lanes ≤ 32 }
    ensures { IfOk result (λ t. AreFresh meta.now lanes t) }
{
    let blocks = new_blocks(alloc, meta)?;
    let rows = new_rows(alloc, lanes)?;
    let lists = new_lists(alloc, lanes)?;
    Ok(Tables {
        blocks,
        rows,
        lists,
    })
}
