//! A system that has just begun, of its parts.
ghost use Rattle.std.specs.Prelude.{◌≡◌, ◌≤◌, [], List, replicate, vec_capacity, None};
ghost use Rattle.page_base.specs.Drive.{IsDrive};
ghost use Rattle.name_table.specs.Files.{IsTable};
ghost use Rattle.extent_map.specs.Places.{IsSound};
ghost use Rattle.system_start.specs.Started.{at_home};
ghost use Rattle.system_start.specs.Fresh.{AreFresh, IsFresh, sizes_of};

use crate::parts::{Crew, note_start};
use crate::starting::Options;
use crate::tables::Tables;
use image_format::Meta;
use system_state::{Places, Rack, Sizes, State, Taken};

// The numbers that never change.
fn sizes_of(meta: &Meta, options: Options) -> Sizes
    ensures { result ≡ sizes_of meta.now options.lanes options.place }
{
    Sizes {
        blocks: meta.geometry.blocks(),
        dies: meta.geometry.dies(),
        meta: meta.geometry.meta_pages(),
        host: 256,
        drive: 128,
        lanes: options.lanes,
        place: options.place,
    }
}

// What holds of all meta data by its types.
fn look(meta: &Meta)
    ensures drive { IsDrive meta.now.geometry.blocks meta.now.geometry.dies }
    ensures table { IsTable meta.now.names }
    ensures sound { IsSound meta.now.extents }
{
    let _drive = meta.geometry.blocks();
    let _table = meta.names.len();
    let _sound = meta.extents.blocks();
}

// The state before any event.
pub(crate) fn join<D: Drop, J: Drop>(
    meta: Meta,
    options: Options,
    tables: Tables,
    crew: Crew<D, J>,
) -> State<D, J>
    requires tables { AreFresh meta options.lanes tables }
    requires spare { crew.spare.items ≡ [] }
    requires room { meta.geometry.dies ≤ vec_capacity crew.spare }
    requires jobs { crew.jobs.items ≡ replicate options.lanes None }
    ensures drive { IsDrive meta.geometry.blocks meta.geometry.dies }
    ensures table { IsTable meta.names }
    ensures sound { IsSound meta.extents }
    ensures fresh { (dies : List D) → crew.slots.items ≡ at_home dies → IsFresh dies meta options.lanes options.place result }
{
    let sizes = sizes_of(&meta, options);
    look(&meta);
    let Tables {
        blocks,
        rows,
        lists,
    } = tables;
    let told = note_start(&sizes.blocks, &sizes.lanes, &sizes.dies);
    State {
        sizes,
        pair: blocks.pair,
        meta,
        functions: lists.functions,
        ranges: lists.ranges,
        lanes: rows.lanes,
        calls: rows.calls,
        jobs: crew.jobs,
        queue: lists.queue,
        pins: blocks.pins,
        taken: Taken { host: 0, drive: 0 },
        rack: Rack { slots: crew.slots },
        spare: crew.spare,
        closer: 0,
        last: 0,
        places: Places {
            host: 0,
            drive: 0,
            reads: 0,
            writes: 0,
        },
        made: 0,
        told,
    }
}
