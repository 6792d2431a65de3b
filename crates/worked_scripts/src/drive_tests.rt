use crate::image_tests::{empty_room, gives, held};
use edge_io::{ReadErr, Room};
use stack_top::Status;
use std::test::Fail;

const STORED: &str = "a: create f\na: write f 0 text:abcd\n";

const READ_TWICE: &str = "fault die 0 read 1\na: read f 0 4\na: read f 0 4\n";

const BOTH_FAIL: &str = "fault copy 0 read 1\nfault die 0 read 1\na: read f 0 4\na: read f 0 4\n";

const SYNCED: &str = "fault die 0 write 1\na: create f\na: write f 0 text:x\na: sync\na: sync\n";

#[test]
fn dies_of_each_kind_serve_and_fail(rt: HostRuntime) -> Result<(), Fail> {
    let alloc = rt.alloc();
    let mut room = empty_room(alloc);
    for (line, script, replies, reads, writes) in [
        (
            "solo - S img",
            STORED,
            "#1 a.1 id 1\n#2 a.2 ok\n",
            0u32,
            135u32,
        ),
        (
            "solo - S flash --die ftl",
            STORED,
            "#1 a.1 id 1\n#2 a.2 ok\n",
            0,
            135,
        ),
        (
            "solo img S -",
            READ_TWICE,
            "#1 a.1 fault\n#2 a.2 data 61626364\n",
            2,
            0,
        ),
        (
            "solo img S - --die mirror",
            READ_TWICE,
            "#1 a.1 data 61626364\n#2 a.2 data 61626364\n",
            1,
            0,
        ),
        (
            "solo img S - --die mirror",
            BOTH_FAIL,
            "#1 a.1 fault\n#2 a.2 data 61626364\n",
            2,
            0,
        ),
        (
            "solo - S -",
            SYNCED,
            "#1 a.1 id 1\n#2 a.2 ok\n#3 a.3 fault\n#4 a.4 ok\n",
            0,
            136,
        ),
    ] {
        let print = format!(in alloc;
            "{replies}places host=0 drive=0 reads={reads} writes={writes}\n"
        )?;
        let told = gives(alloc, line, &mut room, script, Status::Ok, print.as_str())?;
        assert!(rt; told, "at {line}, {script}");
    }
    let refused = gives(
        alloc,
        "solo img S - --die ftl",
        &mut room,
        BOTH_FAIL,
        Status::BadInput,
        "badscript die 1\n",
    )?;
    assert!(rt; refused);
    let image = held(alloc, &mut room, "img")?;
    let flash = held(alloc, &mut room, "flash")?;
    assert!(rt; image.as_slice() == flash.as_slice());
    Ok(())
}

// A drive of one block has 131 pages of meta data: the last sync writes these and, where a file has a page, one more. Gathering then reads all 132.
#[test]
fn a_failed_last_sync_or_gathering_stores_nothing(rt: HostRuntime) -> Result<(), Fail> {
    let alloc = rt.alloc();
    let mut room = empty_room(alloc);
    let made = gives(
        alloc,
        "mkimage m 1 1",
        &mut room,
        "",
        Status::Ok,
        "image bytes=540672\n",
    )?;
    assert!(rt; made);
    for (fault, writes, fails) in [
        ("write 1", 1u32, true),
        ("write 2", 2, true),
        ("write 132", 132, true),
        ("read 1", 132, true),
        ("read 132", 132, true),
        ("read 133", 132, false),
    ] {
        let script = format!(in alloc; "fault die 0 {fault}\na: create f\na: write f 0 text:x\n")?;
        let status = if fails {
            Status::DriveFault
        } else {
            Status::Ok
        };
        let last = if fails { "drivefault\n" } else { "" };
        let print = format!(in alloc;
            "#1 a.1 id 1\n#2 a.2 ok\nplaces host=0 drive=0 reads=0 writes={writes}\n{last}"
        )?;
        let mut bytes = Vec::new(alloc);
        assert_eq!(rt; room.read("out", &mut bytes), Err(ReadErr::Absent));
        let told = gives(
            alloc,
            "solo m S out",
            &mut room,
            script.as_str(),
            status,
            print.as_str(),
        )?;
        assert!(rt; told, "at {fault}");
    }
    assert_eq!(rt; held(alloc, &mut room, "out")?.len(), 540_672);
    Ok(())
}
