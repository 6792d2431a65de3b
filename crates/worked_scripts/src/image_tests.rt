ghost use Rattle.std.specs.Prelude.{◌≤◌};

use edge_io::{Bytes, MemRoom, MemSink, Room, Text};
use stack_top::{Status, stack_quiet};
use std::alloc::{AllocError, Global};
use std::test::Fail;

const PLACES: &str = "places host=0 drive=0 reads=0 writes=0\n";

// The status and the print of some words over a room, where the sink takes so many bytes.
pub(crate) fn asked(
    alloc: Global,
    line: &str,
    room: &mut MemRoom,
    most: usize,
) -> Result<(Status, MemSink), AllocError> {
    let mut words = Vec::new(alloc);
    for word in line.split(' ') {
        words.push(String::from_str(alloc, word)?)?;
    }
    let mut out = MemSink::new(alloc, most, Vec::new(alloc))?;
    let status = stack_quiet(alloc, &words, room, &mut out);
    Ok((status, out))
}

// Whether the words end so and print this, over a room that holds a text under the name S.
pub(crate) fn gives(
    alloc: Global,
    line: &str,
    room: &mut MemRoom,
    script: &str,
    status: Status,
    print: &str,
) -> Result<bool, AllocError> {
    if room.write("S", script.as_bytes()).is_err() {
        return Err(AllocError);
    }
    let (answer, out) = asked(alloc, line, room, 200_000)?;
    Ok(answer == status && out.bytes() == print.as_bytes())
}

// What the room holds under a name.
pub(crate) fn held(alloc: Global, room: &mut MemRoom, name: &str) -> Result<Vec<u8>, AllocError> {
    let mut bytes = Vec::new(alloc);
    match room.read(name, &mut bytes) {
        Ok(()) => Ok(bytes),
        Err(_) => Err(AllocError),
    }
}

pub(crate) fn empty_room(alloc: Global) -> MemRoom {
    MemRoom::new(Vec::new(alloc), Vec::new(alloc), Vec::new(alloc))
}

const ONE_BLOCK: &str =
    "a: create f\na: write f 0 fill:ff*4096\na: remove f\na: create g\na: trunc g 4096\na: read g 4094 2\n";

const NO_SPACE: &str =
    "a: create f\na: write f 0 fill:61*4097\na: write f 0 fill:61*4096\na: remove f\na: create f\na: write f 0 fill:62*4096\n";

const KEPT: &str =
    "a: create log\na: append log text:abc\na: seal log\na: create gone\na: remove gone\n";

const READ_AGAIN: &str =
    "a: read log 0 9\na: write log 0 text:x\na: append log text:d\na: create new\na: read log 0 9\n";

#[test]
fn images_are_written_and_mounted_again(rt: HostRuntime) -> Result<(), Fail> {
    let alloc = rt.alloc();
    let mut room = empty_room(alloc);
    for (line, print) in [
        ("mkimage m 1 1", "image bytes=540672\n"),
        ("mkimage - 2 16", "image bytes=544768\n"),
    ] {
        let told = gives(alloc, line, &mut room, "", Status::Ok, print)?;
        assert!(rt; told, "at {line}");
    }
    for (line, script, replies, reads, writes) in [
        (
            "solo m S -",
            ONE_BLOCK,
            "#1 a.1 id 1\n#2 a.2 ok\n#3 a.3 ok\n#4 a.4 id 2\n#5 a.5 ok\n#6 a.6 data 0000\n",
            0u32,
            0u32,
        ),
        (
            "solo m S -",
            NO_SPACE,
            "#1 a.1 id 1\n#2 a.2 nospace\n#3 a.3 ok\n#4 a.4 ok\n#5 a.5 id 2\n#6 a.6 ok\n",
            0,
            0,
        ),
        (
            "solo m S m",
            KEPT,
            "#1 a.1 id 1\n#2 a.2 at 0\n#3 a.3 ok\n#4 a.4 id 2\n#5 a.5 ok\n",
            0,
            132,
        ),
        (
            "solo m S S",
            READ_AGAIN,
            "#1 a.1 data 616263\n#2 a.2 appendonly\n#3 a.3 at 3\n#4 a.4 id 3\n#5 a.5 data 61626364\n",
            1,
            132,
        ),
    ] {
        let print = format!(in alloc;
            "{replies}places host=0 drive=0 reads={reads} writes={writes}\n"
        )?;
        let told = gives(alloc, line, &mut room, script, Status::Ok, print.as_str())?;
        assert!(rt; told, "at {line}, {script}");
    }
    let image = held(alloc, &mut room, "S")?;
    assert_eq!(rt; image.len(), 540_672);
    assert_eq!(rt; room.write("w", &image), Ok(()));
    let print = "#1 a.1 data 61626364\n#2 a.2 id 3\nplaces host=0 drive=0 reads=1 writes=0\n";
    let script = "a: read log 0 9\na: open new\n";
    let told = gives(alloc, "solo w S -", &mut room, script, Status::Ok, print)?;
    assert!(rt; told);
    Ok(())
}

// Puts bytes into an image from a place on, as far as it goes.
fn put(image: &mut Vec<u8>, at: usize, bytes: &[u8]) {
    for (i, byte) in bytes.iter().enumerate() {
        if at < image.len() && i < image.len() - at {
            image[at + i] = *byte;
        }
    }
}

/// An image with one file at most: `a`, of so many bytes, whose pages have one extent.
#[derive(Clone, Copy)]
struct Made {
    version: u32,
    blocks: u32,
    next: u32,
    len: u32,
    extent: [u32; 4],
    changed: [(usize, u8); 2],
}

// Where the extent entries of a version begin.
fn entries_at(version: u32) -> usize
    ensures { result ≤ 528384 }
{
    if version == 1 { 69_632 } else { 528_384 }
}

// The bytes of the image; one block is behind one page of entries and one of the bitmap.
fn image_of(alloc: Global, made: Made) -> Result<Vec<u8>, AllocError> {
    let entries = entries_at(made.version);
    let pages = if made.blocks == 1 { 3 } else { 1029 };
    let mut image = vec![in alloc; 0u8; entries + 4096 * pages]?;
    put(&mut image, 0, b"LIO1");
    put(&mut image, 4, &made.version.to_le_bytes());
    put(&mut image, 8, &made.blocks.to_le_bytes());
    put(&mut image, 12, &1u32.to_le_bytes());
    put(&mut image, 16, &made.next.to_le_bytes());
    if made.len > 0 {
        put(&mut image, 4096, &1u32.to_le_bytes());
        put(&mut image, 4100, &made.len.to_le_bytes());
        put(&mut image, 4104, &[1]);
        put(
            &mut image,
            if made.version == 1 { 4112 } else { 4128 },
            b"a",
        );
    }
    for (i, field) in made.extent.iter().enumerate() {
        if i < 4 {
            put(&mut image, entries + 4 * i, &field.to_le_bytes());
        }
    }
    for (at, byte) in &made.changed {
        put(&mut image, *at, &[*byte]);
    }
    Ok(image)
}

// An image of one block without files.
fn empty(version: u32) -> Made {
    Made {
        version,
        blocks: 1,
        next: 1,
        len: 0,
        extent: [0; 4],
        changed: [(0, b'L'); 2],
    }
}

// How the program ends with an image, and whether this is its last line.
fn is_refused(alloc: Global, image: &[u8], line: &str) -> Result<bool, AllocError> {
    let mut room = empty_room(alloc);
    if room.write("img", image).is_err() {
        return Err(AllocError);
    }
    gives(alloc, "solo img S -", &mut room, "", Status::BadImage, line)
}

#[test]
fn hostile_images_are_refused(rt: HostRuntime) -> Result<(), Fail> {
    let alloc = rt.alloc();
    for version in [1u32, 2] {
        let plain = empty(version);
        let entries = entries_at(version);
        let first = Made {
            next: 2,
            len: 4096,
            ..plain
        };
        let wide = Made {
            len: 8192,
            extent: [1, 0, 0, 2],
            ..first
        };
        let tail = Made {
            len: 1,
            extent: [1, 0, 0, 1],
            changed: [(entries + 4096, 1), (entries + 8193, 1)],
            ..first
        };
        let at_extent = format!(in alloc; "extent {entries}")?;
        for (made, fault) in [
            (
                Made {
                    changed: [(0, 0); 2],
                    ..plain
                },
                "magic 0",
            ),
            (
                Made {
                    changed: [(4, 3); 2],
                    ..plain
                },
                "version 4",
            ),
            (
                Made {
                    changed: [(8, 0); 2],
                    ..plain
                },
                "geometry 8",
            ),
            (
                Made {
                    changed: [(12, 17); 2],
                    ..plain
                },
                "geometry 12",
            ),
            (Made { next: 0, ..plain }, "nextid 16"),
            (
                Made {
                    changed: [(4095, 1); 2],
                    ..plain
                },
                "reserved 4095",
            ),
            (
                Made {
                    changed: [(4105, 1); 2],
                    ..plain
                },
                "record 4096",
            ),
            (
                Made {
                    len: 268_435_457,
                    ..first
                },
                "filelength 4096",
            ),
            (wide, at_extent.as_str()),
            (first, "cover 1"),
            (
                Made {
                    changed: [(entries + 4096, 1); 2],
                    ..plain
                },
                "bitmap 0",
            ),
            (tail, "tail 1"),
        ] {
            let image = image_of(alloc, made)?;
            let line = format!(in alloc; "badimage {fault}\n")?;
            let refused = is_refused(alloc, &image, line.as_str())?;
            assert!(rt; refused, "version {version}: {fault}");
        }
        let mut longer = image_of(alloc, plain)?;
        longer.push(0)?;
        let len = longer.len();
        let line = format!(in alloc; "badimage length {len}\n")?;
        let refused = is_refused(alloc, &longer, line.as_str())?;
        assert!(rt; refused);
    }
    let wide = Made {
        blocks: 1024,
        next: 3,
        ..empty(1)
    };
    let mut overlap = image_of(
        alloc,
        Made {
            len: 4096,
            extent: [1, 0, 0, 1],
            ..wide
        },
    )?;
    put(&mut overlap, 4160, &[2, 0, 0, 0, 0, 16, 0, 0, 1]);
    put(&mut overlap, 4176, b"b");
    put(
        &mut overlap,
        69_648,
        &[2, 0, 0, 0, 0, 0, 0, 0, 0, 0, 0, 0, 1],
    );
    let refused = is_refused(alloc, &overlap, "badimage overlap 69648\n")?;
    assert!(rt; refused);
    let mut nameless = image_of(
        alloc,
        Made {
            changed: [(4096, 1); 2],
            ..wide
        },
    )?;
    let refused = is_refused(alloc, &nameless, "badimage name 4096\n")?;
    assert!(rt; refused);
    nameless.truncate(100);
    let refused = is_refused(alloc, &nameless, "badimage short 100\n")?;
    assert!(rt; refused);
    Ok(())
}

#[test]
fn an_image_of_version_1_becomes_one_of_version_2(rt: HostRuntime) -> Result<(), Fail> {
    let alloc = rt.alloc();
    let made = Made {
        next: 2,
        len: 1,
        extent: [1, 0, 0, 1],
        changed: [(73_728, 1), (77_824, 0x61)],
        ..empty(1)
    };
    let mut image = image_of(alloc, made)?;
    let mut room = empty_room(alloc);
    assert_eq!(rt; room.write("v1", &image), Ok(()));
    let script = "a: read a 0 1\n";
    let print = "#1 a.1 data 61\nplaces host=0 drive=0 reads=1 writes=131\n";
    let told = gives(alloc, "solo v1 S w", &mut room, script, Status::Ok, print)?;
    assert!(rt; told);
    let written = held(alloc, &mut room, "w")?;
    assert_eq!(rt; written.len(), 540_672);
    assert_eq!(rt; &written[4..8], [2u8, 0, 0, 0].as_slice());
    let print = "#1 a.1 data 61\nplaces host=0 drive=0 reads=1 writes=0\n";
    let told = gives(alloc, "solo w S -", &mut room, script, Status::Ok, print)?;
    assert!(rt; told);
    put(&mut image, 4, &[2]);
    let refused = is_refused(alloc, &image, "badimage length 81920\n")?;
    assert!(rt; refused);
    Ok(())
}

// A room that holds an image of one block and two dies and a script, and fails at these reads and writes.
fn failing(
    alloc: Global,
    script: &str,
    fail_reads: Vec<u64>,
    fail_writes: Vec<u64>,
) -> Result<MemRoom, AllocError> {
    let mut made = empty_room(alloc);
    let _ = asked(alloc, "mkimage img 1 2", &mut made, 100)?;
    let image = Bytes::new(held(alloc, &mut made, "img")?);
    let calls = Bytes::new(script.as_bytes().to_vec(alloc)?);
    let mut files = Vec::new(alloc);
    files.push((Text::new(String::from_str(alloc, "img")?), image))?;
    files.push((Text::new(String::from_str(alloc, "T")?), calls))?;
    Ok(MemRoom::new(files, fail_reads, fail_writes))
}

#[test]
fn a_failing_room_and_sink_are_told(rt: HostRuntime) -> Result<(), Fail> {
    let alloc = rt.alloc();
    let script = "a: create f\na: append f text:ab\n";
    let print = "#1 a.1 id 1\n#2 a.2 at 0\nplaces host=0 drive=0 reads=0 writes=132\n";
    let unwritten = format!(in alloc; "{print}writefault out\n")?;
    for (reads, writes, status, last) in [
        (1u64, 0u64, Status::ReadFault, "readfault img\n"),
        (2, 0, Status::ReadFault, "readfault T\n"),
        (0, 1, Status::WriteFault, unwritten.as_str()),
        (0, 0, Status::Ok, print),
    ] {
        let mut room = failing(
            alloc,
            script,
            vec![in alloc; reads]?,
            vec![in alloc; writes]?,
        )?;
        let (answer, out) = asked(alloc, "solo img T out", &mut room, 4096)?;
        assert_eq!(rt; answer, status);
        assert!(rt; out.bytes() == last.as_bytes());
    }
    let mut room = failing(alloc, script, Vec::new(alloc), Vec::new(alloc))?;
    for most in [0usize, 1, 12, 13, 62] {
        let (status, out) = asked(alloc, "solo img T out", &mut room, most)?;
        assert_eq!(rt; status, Status::WriteFault, "at {most}");
        assert_eq!(rt; out.bytes().len(), most);
        assert!(rt; print.as_bytes().starts_with(out.bytes()), "at {most}");
    }
    Ok(())
}

#[test]
fn transcripts_are_checked_over_an_image(rt: HostRuntime) -> Result<(), Fail> {
    let alloc = rt.alloc();
    let script = "fault die 1 write 1\na: create f\na: append f fill:61*4097\na: append f text:a\n";
    let mut room = failing(alloc, script, Vec::new(alloc), Vec::new(alloc))?;
    for (lines, status, last) in [
        (
            "#1 a.1 id 1\n#2 a.2 nospace\n#3 a.3 at 0\n",
            Status::Ok,
            "legal 3\n",
        ),
        (
            "#1 a.1 id 1\n#2 a.2 at 0\n#3 a.3 at 4097\n",
            Status::Differs,
            "differs 2 expected nospace\n",
        ),
        (
            "#1 a.1 id 1\n#2 a.3 at 0\n#3 a.2 nospace\n",
            Status::Differs,
            "differs 2 order\n",
        ),
        (
            "#1 a.1 fault\n#2 a.2 nofile\n#3 a.3 nofile\n",
            Status::Ok,
            "legal 3\n",
        ),
    ] {
        let transcript = format!(in alloc; "{lines}{PLACES}")?;
        let told = gives(
            alloc,
            "check img T S",
            &mut room,
            transcript.as_str(),
            status,
            last,
        )?;
        assert!(rt; told, "at {lines}");
    }
    let told = gives(
        alloc,
        "check img S S",
        &mut room,
        "fault die 2 read 1\n",
        Status::BadInput,
        "badscript die 1\n",
    )?;
    assert!(rt; told);
    let print = format!(in alloc; "#1 a.1 id 1\n#2 a.2 nospace\n#3 a.3 at 0\n{PLACES}")?;
    let told = gives(
        alloc,
        "solo img T -",
        &mut room,
        "",
        Status::Ok,
        print.as_str(),
    )?;
    assert!(rt; told);
    Ok(())
}
