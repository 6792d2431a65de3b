use crate::{
    Bytes, HostRoom, Listed, MemRoom, MemSink, ReadErr, Room, Sink, SinkFailed, StdSink, Text,
    WriteErr, put_all,
};
use std::alloc::{AllocError, Global};
use std::test::Fail;
use std::{env, fs, process};

fn file(alloc: Global, name: &str, bytes: &[u8]) -> Result<(Text, Bytes), AllocError> {
    let name = Text::new(String::from_str(alloc, name)?);
    Ok((name, Bytes::new(bytes.to_vec(alloc)?)))
}

// What a room gives under a name.
fn held<R: Room>(alloc: Global, room: &mut R, name: &str) -> Result<Vec<u8>, ReadErr> {
    let mut bytes = Vec::new(alloc);
    room.read(name, &mut bytes)?;
    Ok(bytes)
}

#[test]
fn a_room_in_memory_fails_where_it_is_told_to(rt: HostRuntime) -> Result<(), Fail> {
    let alloc = rt.alloc();
    let files = vec![in alloc; file(alloc, "a", b"one")?, file(alloc, "b", b"two")?]?;
    let mut room = MemRoom::new(files, vec![in alloc; 2, 3]?, vec![in alloc; 2]?);
    assert_eq!(rt; held(alloc, &mut room, "b")?.as_slice(), b"two".as_slice());
    assert!(rt; matches!(&held(alloc, &mut room, "b"), Err(ReadErr::Failed)));
    assert!(rt; matches!(&held(alloc, &mut room, "c"), Err(ReadErr::Absent)));
    assert_eq!(rt; room.write("c", b"three"), Ok(()));
    assert_eq!(rt; room.write("a", b""), Err(WriteErr::Failed));
    assert_eq!(rt; room.write("b", b"2"), Ok(()));
    assert_eq!(rt; held(alloc, &mut room, "a")?.as_slice(), b"one".as_slice());
    assert_eq!(rt; held(alloc, &mut room, "b")?.as_slice(), b"2".as_slice());
    assert_eq!(rt;
        held(alloc, &mut room, "c")?.as_slice(),
        b"three".as_slice()
    );
    Ok(())
}

#[test]
fn a_sink_in_memory_takes_what_there_is_room_for(rt: HostRuntime) -> Result<(), Fail> {
    let alloc = rt.alloc();
    let mut out = MemSink::new(alloc, 5, vec![in alloc; 2]?)?;
    assert_eq!(rt; out.write(b"abc"), Ok(3));
    assert_eq!(rt; out.write(b""), Err(SinkFailed));
    assert_eq!(rt; out.write(b"defg"), Ok(2));
    assert_eq!(rt; out.write(b""), Ok(0));
    assert_eq!(rt; out.write(b"h"), Err(SinkFailed));
    assert_eq!(rt; out.bytes(), b"abcde".as_slice());
    Ok(())
}

#[test]
fn all_is_put_or_a_front_of_it(rt: HostRuntime) -> Result<(), Fail> {
    let alloc = rt.alloc();
    let mut out = MemSink::new(alloc, 4, Vec::new(alloc))?;
    assert_eq!(rt; put_all(&mut out, b"abc"), Ok(()));
    assert_eq!(rt; put_all(&mut out, b"de"), Err(SinkFailed));
    assert_eq!(rt; out.bytes(), b"abcd".as_slice());
    Ok(())
}

#[test]
fn real_files_are_replaced_and_read(rt: HostRuntime) -> Result<(), Fail> {
    let alloc = rt.alloc();
    let id = process::id(rt.process());
    let name = format!(in alloc; "edge_io_{id}")?;
    let path = env::temp_dir(&rt)?.join(alloc, name.as_str())?;
    let path = path.to_str().ok_or("the path is text")?;
    let mut room = HostRoom::new(&rt);
    assert!(rt; matches!(&held(alloc, &mut room, path), Err(ReadErr::Absent)));
    let long = vec![in alloc; 7u8; 9000]?;
    assert_eq!(rt; room.write(path, &long), Ok(()));
    assert_eq!(rt; held(alloc, &mut room, path)?.as_slice(), long.as_slice());
    assert_eq!(rt; room.write(path, b"short"), Ok(()));
    assert_eq!(rt;
        held(alloc, &mut room, path)?.as_slice(),
        b"short".as_slice()
    );
    fs::remove_file(&rt, path)?;
    assert!(rt; matches!(&held(alloc, &mut room, "/"), Err(ReadErr::Failed)));
    assert_eq!(rt; room.write("/", b"x"), Err(WriteErr::Failed));
    Ok(())
}

#[test]
fn standard_output_takes_bytes(rt: HostRuntime) {
    let mut out = StdSink::new(&rt);
    assert_eq!(rt; put_all(&mut out, b"one line\n"), Ok(()));
    assert_eq!(rt; out.write(b""), Ok(0));
}

#[test]
fn a_list_gives_back_what_was_pushed(rt: HostRuntime) -> Result<(), Fail> {
    let alloc = rt.alloc();
    let mut list = Listed::new(Vec::new(alloc));
    assert!(rt; list.is_empty());
    list.push(5u32)?;
    list.push(6u32)?;
    assert_eq!(rt; list.len(), 2);
    assert_eq!(rt; list.into_vec().as_slice(), [5, 6].as_slice());
    Ok(())
}
