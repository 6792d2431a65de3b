use super::*;
use std::test::Fail;

fn numbered(letter: u8, number: u32) -> Option<Name> {
    let digits = [
        letter,
        b'0' + ((number / 1000) % 10) as u8,
        b'0' + ((number / 100) % 10) as u8,
        b'0' + ((number / 10) % 10) as u8,
        b'0' + (number % 10) as u8,
    ];
    Name::of(&digits)
}

#[test]
fn as_many_files_as_there_may_be(rt: HostRuntime) -> Result<(), Fail> {
    let mut names = Names::new(rt.alloc())?;
    for number in 0..4096u32 {
        let name = numbered(b'f', number).ok_or("a name")?;
        assert_eq!(rt; names.create(name), Ok(number + 1));
    }
    assert!(rt; names.is_full());
    let other = numbered(b'g', 0).ok_or("a name")?;
    let full = NameErr::Full {
        files: 4096,
        next: 4097,
    };
    assert_eq!(rt; names.create(other), Err(full));
    let first = numbered(b'f', 0).ok_or("a name")?;
    assert_eq!(rt; names.create(first), Err(NameErr::Exists { id: 1 }));
    for number in 0..4096u32 {
        let name = numbered(b'f', number).ok_or("a name")?;
        assert_eq!(rt; names.find(&name), Some(number + 1));
    }
    let seventh = names.by_id(7).ok_or("the seventh file")?;
    names.remove(7);
    assert_eq!(rt; names.find(&seventh.name), None);
    assert_eq!(rt; names.create(other), Ok(4097));
    let last = names.by_id(4097).ok_or("the last file")?;
    assert_eq!(rt; last.slot, seventh.slot);
    assert_eq!(rt; names.len(), 4096);
    Ok(())
}

#[test]
fn files_that_are_placed(rt: HostRuntime) -> Result<(), Fail> {
    let mut names = Names::new(rt.alloc())?;
    let name = numbered(b'p', 1).ok_or("a name")?;
    names.place(9, name);
    names.set_len(9, 268_435_456);
    names.seal(9);
    names.set_next(20);
    let file = names.by_id(9).ok_or("the file")?;
    assert_eq!(rt;
        (file.id, file.len, file.slot, file.sealed),
        (9, 268_435_456, 0, true)
    );
    assert!(rt; file.name == name);
    assert_eq!(rt; names.next_id(), 20);
    let seen = names.at(0).ok_or("the first file")?;
    assert_eq!(rt; seen.id, 9);
    assert!(rt; names.at(1).is_none());
    assert!(rt; names.by_id(8).is_none());
    Ok(())
}
