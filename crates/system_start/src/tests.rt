ghost use Rattle.std.specs.Prelude.{◌≡◌, ◌≤◌, length, IfOk};
ghost use Rattle.dispatcher.specs.declared.side.Place.TheVariants.{Auto};
ghost use Rattle.core_state.specs.Opening.{Image, opening_core};
ghost use Rattle.system_state.specs.Cores.{core_of};
ghost use Rattle.system_state.specs.Stands.{IsStanding};

use crate::laws::empty_drives_may_start;
use crate::{Options, into_dies, start};
use dispatcher::Place;
use edge_io::Listed;
use flash_die::{Die, DieMem, Plan};
use image_format::empty_meta;
use page_base::{Geometry, NoMemory, Page};
use std::alloc::Global;
use system_state::{CallJob, Places, State};

// A job of nothing.
#[derive(Drop)]
struct NoJob;

impl CallJob for NoJob {
    ghost use Rattle.system_state.specs.Jobs.{JobView};

    ghost suits = { λ _ _. Unit {0} };
}

// So many pages of zeros.
fn zero_pages(alloc: Global, count: u32) -> Result<Vec<Page>, NoMemory>
    ensures { IfOk result (λ pages. length pages.items ≡ count) }
{
    let mut pages = Vec::with_capacity(alloc, count as usize)?;
    for _ in 0..count {
        pages.push(Page::zero(alloc)?)?;
    }
    Ok(pages)
}

// A die in memory that never fails.
fn zero_die(alloc: Global, pages: u32) -> Result<DieMem, NoMemory>
    ensures { IfOk result (λ die. (⟦<DieMem as Die>⟧.seen die).size ≡ pages) }
{
    let plan = Plan {
        reads: Listed::new(Vec::new(alloc)),
        writes: Listed::new(Vec::new(alloc)),
    };
    Ok(DieMem::new(zero_pages(alloc, pages)?, plan))
}

// The system of a drive of one die, without files.
fn start_empty(
    alloc: Global,
    geometry: Geometry,
    lanes: u32,
) -> Result<State<DieMem, NoJob>, NoMemory>
    requires one { geometry.dies ≡ 1 }
    requires few { lanes ≤ 32 }
    ensures standing { IfOk result (λ s. IsStanding ⟦<DieMem as Die>⟧.seen ⟦<NoJob as CallJob>⟧.suits s) }
    ensures core { IfOk result (λ s. (image : Image) × (core_of ⟦<DieMem as Die>⟧.seen s ≡ opening_core image lanes Auto)) }
{
    empty_drives_may_start::<DieMem>();
    let meta = empty_meta(alloc, geometry)?;
    let die = zero_die(alloc, geometry.die_pages(0))?;
    let dies = vec![in alloc; die]?;
    let place = Place::Auto;
    start(alloc, dies, meta, Options { place, lanes })
}

#[test]
fn an_empty_drive_starts_and_hands_its_die_back(rt: HostRuntime) -> Result<(), NoMemory> {
    let Some(geometry) = Geometry::new(3, 1) else {
        assert!(rt; false);
        return Ok(());
    };
    let state = start_empty(rt.alloc(), geometry, 2)?;
    let none = Places {
        host: 0,
        drive: 0,
        reads: 0,
        writes: 0,
    };
    assert_eq!(rt; state.places, none);
    let (dies, back) = into_dies(state);
    assert_eq!(rt; (dies.len(), back), (1, geometry));
    assert_eq!(rt; dies[0].pages(), geometry.total());
    Ok(())
}
