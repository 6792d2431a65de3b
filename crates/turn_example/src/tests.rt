use crate::add::{add_once, add_seated};
use crate::counter::empty;
use crate::pair::two;
use crate::raise::{raise_alone, raise_seated};
use crate::share::add_all;
use std::test::Fail;
use turn_cell::{Alone, Closed, NewErr, Seated, Turn};

#[test]
fn two_threads_add_up(rt: HostRuntime) -> Result<(), Fail> {
    let Ok(closed) = two(&rt, rt.alloc(), empty(5), 10, 20) else {
        panic!(rt; "worn or no memory")
    };
    let Closed { book, .. } = closed;
    assert!(rt; book.total == 35 && book.made == 2);
    Ok(())
}

#[test]
fn shares_of_threads_add_up(rt: HostRuntime) -> Result<(), Fail> {
    let Ok(closed) = add_all(&rt, rt.alloc(), empty(5), &[1, 20, 300, 4000]) else {
        panic!(rt; "worn or no memory")
    };
    let Closed { book, .. } = closed;
    assert!(rt; book.total == 4326 && book.made == 4);
    Ok(())
}

#[test]
fn the_only_pass_counts_and_closes(rt: HostRuntime) -> Result<(), Fail> {
    let Ok(mut alone) = Alone::new(rt.alloc(), empty(5), 0) else {
        panic!(rt; "no memory")
    };
    let first = add_once(&mut alone, 7, 10);
    assert!(rt; matches!(first, Ok(15)));
    let raised = raise_alone(&mut alone, 8, 20);
    assert!(rt; raised.is_ok());
    let Closed { book, .. } = alone.close();
    assert!(rt; book.total == 20 && book.made == 6);
    Ok(())
}

#[test]
fn a_seated_pass_raises(rt: HostRuntime) -> Result<(), Fail> {
    let Ok((turn, root)) = Turn::new(rt.alloc(), empty(5), 0) else {
        panic!(rt; "no memory")
    };
    let mut desk = Seated::new(&rt, &turn, root);
    let raised = raise_seated(&mut desk, 0, 8);
    assert!(rt; raised.is_ok());
    let root = desk.into_pass();
    let (_root, more) = add_seated(&rt, &turn, root, 0, 1);
    assert!(rt; matches!(more, Ok(9)));
    Ok(())
}

#[test]
fn the_last_count_is_worn(rt: HostRuntime) -> Result<(), Fail> {
    let Ok((turn, root)) = Turn::new(rt.alloc(), empty(5), 4611686018427387903) else {
        panic!(rt; "no memory")
    };
    let (root, first) = add_seated(&rt, &turn, root, 0, 1);
    assert!(rt; matches!(first, Ok(6)));
    let (_root, second) = add_seated(&rt, &turn, root, 0, 1);
    assert!(rt; matches!(second, Err(worn) if worn.count == 4611686018427387904));
    Ok(())
}

#[test]
fn without_memory_the_book_comes_back(rt: HostRuntime) -> Result<(), Fail> {
    match Turn::new(rt.alloc(), empty(5), 0) {
        Ok((turn, root)) => {
            let Closed { book, .. } = turn.close(root);
            assert!(rt; book.total == 5);
        }
        Err(NewErr::NoMemory(book)) => assert!(rt; book.total == 5),
    }
    Ok(())
}
