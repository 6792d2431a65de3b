ghost use Rattle.std.specs.Prelude.{◌≡◌, IfOk, length};
ghost use Rattle.page_base.specs.Drive.{total_pages};

use crate::laws::{
    gathered_spread_is_the_image, image_page_lies_on_its_die, joined_cuts_are_the_image,
};
use crate::{GatherErr, gather, spread, spread_ftl, spread_mirror};
use edge_io::Listed;
use flash_die::Plan;
use page_base::{Geometry, NoMemory, Page};
use std::alloc::{AllocError, Global};

// A drive of one data block.
#[derive(Drop)]
struct Drive {
    geometry: Geometry,
    pages: Vec<Page>,
    plans: Vec<Plan>,
}

// A plan of each die, in which the read of that number fails.
fn plans(alloc: Global, reads: &[u32]) -> Result<Vec<Plan>, NoMemory> {
    let mut plans = Vec::new(alloc);
    for read in reads {
        plans.push(Plan {
            reads: Listed::new(vec![in alloc; *read]?),
            writes: Listed::new(Vec::new(alloc)),
        })?;
    }
    Ok(plans)
}

// As many dies as there are reads that fail, and pages that are full of their number.
fn small_drive(alloc: Global, reads: &[u32]) -> Result<Drive, NoMemory>
    ensures pages { IfOk result (λ drive. length drive.pages.items ≡ total_pages drive.geometry.blocks) }
    ensures plans { IfOk result (λ drive. length drive.plans.items ≡ drive.geometry.dies) }
{
    let mut pages = Vec::new(alloc);
    for byte in 0..132 {
        let mut page = Page::zero(alloc)?;
        page.patch(0, &[byte; 4096]);
        pages.push(page)?;
    }
    let plans = plans(alloc, reads)?;
    let Some(geometry) = u32::try_from(reads.len())
        .ok()
        .and_then(|dies| Geometry::new(1, dies))
    else {
        return Err(AllocError);
    };
    if pages.len() != geometry.total() as usize || plans.len() != geometry.dies() as usize {
        return Err(AllocError);
    }
    Ok(Drive {
        geometry,
        pages,
        plans,
    })
}

// Whether the bytes are 132 pages, each full of its number.
fn is_the_image(bytes: &[u8]) -> bool {
    bytes.len() == 132 * 4096
        && bytes
            .chunks(4096)
            .zip(0..132u8)
            .all(|(page, number)| page.iter().all(|byte| *byte == number))
}

#[test]
fn a_spread_is_gathered_as_it_was(rt: HostRuntime) -> Result<(), GatherErr> {
    let alloc = rt.alloc();
    let drive = small_drive(alloc, &[45, 45, 45])?;
    let bytes = gathered_spread_is_the_image(alloc, drive.pages, drive.geometry, drive.plans)?;
    assert!(rt; is_the_image(&bytes));
    image_page_lies_on_its_die();
    joined_cuts_are_the_image();
    Ok(())
}

#[test]
fn the_first_die_that_fails_is_named(rt: HostRuntime) -> Result<(), GatherErr> {
    let alloc = rt.alloc();
    let drive = small_drive(alloc, &[45, 44, 7])?;
    let mut dies = spread(alloc, drive.pages, drive.geometry, drive.plans)?;
    assert_eq!(rt;
        gather(alloc, &mut dies, drive.geometry),
        Err(GatherErr::Die { die: 2 })
    );
    Ok(())
}

#[test]
fn a_mirror_serves_where_one_copy_fails(rt: HostRuntime) -> Result<(), GatherErr> {
    let alloc = rt.alloc();
    let drive = small_drive(alloc, &[1, 2, 3])?;
    let copies = plans(alloc, &[9, 9, 9])?;
    if copies.len() != drive.geometry.dies() as usize {
        return Err(GatherErr::NoMemory);
    }
    let mut dies = spread_mirror(alloc, drive.pages, drive.geometry, drive.plans, copies)?;
    let bytes = gather(alloc, &mut dies, drive.geometry)?;
    assert!(rt; is_the_image(&bytes));
    Ok(())
}

#[test]
fn a_mirror_fails_where_both_copies_do(rt: HostRuntime) -> Result<(), GatherErr> {
    let alloc = rt.alloc();
    let drive = small_drive(alloc, &[45, 3, 45])?;
    let copies = plans(alloc, &[1, 1, 1])?;
    if copies.len() != drive.geometry.dies() as usize {
        return Err(GatherErr::NoMemory);
    }
    let mut dies = spread_mirror(alloc, drive.pages, drive.geometry, drive.plans, copies)?;
    assert_eq!(rt;
        gather(alloc, &mut dies, drive.geometry),
        Err(GatherErr::Die { die: 1 })
    );
    Ok(())
}

#[test]
fn dies_over_raw_flash_are_gathered_as_they_were(rt: HostRuntime) -> Result<(), GatherErr> {
    let alloc = rt.alloc();
    let drive = small_drive(alloc, &[67, 67])?;
    let mut dies = spread_ftl(alloc, drive.pages, drive.geometry, drive.plans)?;
    let bytes = gather(alloc, &mut dies, drive.geometry)?;
    assert!(rt; is_the_image(&bytes));
    assert_eq!(rt;
        gather(alloc, &mut dies, drive.geometry),
        Err(GatherErr::Die { die: 0 })
    );
    Ok(())
}
