use super::*;
use std::alloc::AllocError;

#[test]
fn lowest_free_blocks_come_first(rt: HostRuntime) -> Result<(), AllocError> {
    let mut map = ExtentMap::new(rt.alloc(), 8)?;
    assert_eq!(rt; map.allocate(2, 3), Ok(()));
    assert_eq!(rt; map.allocate(1, 2), Ok(()));
    map.release_from(2, 1);
    assert_eq!(rt; map.allocate(1, 4), Ok(()));
    assert_eq!(rt; map.block_of(1, 0), Some(3));
    assert_eq!(rt; map.block_of(1, 2), Some(1));
    assert_eq!(rt; map.block_of(1, 5), Some(6));
    assert_eq!(rt; map.block_of(1, 6), None);
    assert_eq!(rt; map.owner_of(2), Some((1, 3)));
    assert_eq!(rt; map.owner_of(7), None);
    assert_eq!(rt; map.allocate(2, 2), Err(NoSpace { free: 1 }));
    assert_eq!(rt; map.free(), 1);
    Ok(())
}

#[test]
fn extents_are_maximal_runs(rt: HostRuntime) -> Result<(), AllocError> {
    let mut map = ExtentMap::new(rt.alloc(), 8)?;
    let first = Extent {
        file: 1,
        page: 0,
        block: 3,
        count: 2,
    };
    let second = Extent {
        file: 1,
        page: 2,
        block: 5,
        count: 1,
    };
    let third = Extent {
        file: 2,
        page: 0,
        block: 0,
        count: 3,
    };
    assert_eq!(rt; map.place(first), Ok(()));
    assert_eq!(rt; map.place(second), Ok(()));
    assert_eq!(rt; map.place(third), Ok(()));
    let joined = Extent {
        file: 1,
        page: 0,
        block: 3,
        count: 3,
    };
    assert_eq!(rt; map.extent(0), Some(joined));
    assert_eq!(rt; map.extent(1), Some(third));
    assert_eq!(rt; map.extent(2), None);
    assert_eq!(rt; map.run_at(1).count, 2);
    let overlapping = Extent {
        file: 3,
        page: 0,
        block: 2,
        count: 5,
    };
    assert_eq!(rt; map.place(overlapping), Err(Taken { block: 2 }));
    assert_eq!(rt; map.blocks(), 8);
    let place = Place {
        file: 2,
        page: 2,
        block: 2,
    };
    assert_eq!(rt; map.place_at(5), Some(place));
    Ok(())
}

// A drive of one block: a file of two pages doesn't fit, and a file that is removed gives its block back.
#[test]
fn one_block_is_given_again(rt: HostRuntime) -> Result<(), AllocError> {
    let mut map = ExtentMap::new(rt.alloc(), 1)?;
    assert_eq!(rt; map.allocate(1, 2), Err(NoSpace { free: 1 }));
    assert_eq!(rt; map.allocate(1, 1), Ok(()));
    map.release_from(1, 0);
    assert_eq!(rt; map.allocate(2, 1), Ok(()));
    assert_eq!(rt; map.owner_of(0), Some((2, 0)));
    Ok(())
}
