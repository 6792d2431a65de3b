//! Lines of transcripts as a user sees them.
use crate::{TranscriptErr, places_line, read_transcript, reply_line};
use edge_io::{Bytes, Listed, Text};
use plain_files::{Call, CodeKind, Reply, Request, Word};
use sbpf_insn::VerifyKind;
use script_words::{Lane, Script};
use std::alloc::Global;
use std::test::Fail;

fn word(text: &str) -> Result<Word, Fail> {
    Ok(Word::of(text.as_bytes()).ok_or("no word")?)
}

fn text(alloc: Global, text: &str) -> Result<Text, Fail> {
    Ok(Text::new(String::from_str(alloc, text)?))
}

// A lane with one call, which waits for none.
fn lane(alloc: Global, name: &str, call: Call) -> Result<Lane, Fail> {
    let mut requests = Listed::new(Vec::new(alloc));
    requests.push(Request { call, awaits: None })?;
    let name = text(alloc, name)?;
    Ok(Lane { name, requests })
}

// `a: stat f`, `b: read f 0 9` and `c: readl f 0 1 g 9 8 hex:`.
fn script(alloc: Global) -> Result<Script, Fail> {
    let mut lanes = Listed::new(Vec::new(alloc));
    lanes.push(lane(alloc, "a", Call::Stat(word("f")?))?)?;
    lanes.push(lane(alloc, "b", Call::Read(word("f")?, 0, 9))?)?;
    let readl = Call::Readl {
        file: word("f")?,
        off: 0,
        len: 1,
        function: word("g")?,
        fuel: 9,
        cap: 8,
        param: Bytes::new(Vec::new(alloc)),
    };
    lanes.push(lane(alloc, "c", readl)?)?;
    Ok(Script {
        lanes,
        order: Listed::new(Vec::new(alloc)),
        faults: Listed::new(Vec::new(alloc)),
    })
}

#[test]
fn lines_of_a_transcript_are_printed(rt: HostRuntime) -> Result<(), Fail> {
    let lane = text(rt.alloc(), "a")?;
    let bytes = Bytes::new(b"\0\0\0\0hello".to_vec(rt.alloc())?);
    let found = reply_line(rt.alloc(), 7, &lane, 4, &Reply::DataBytes(bytes))?;
    assert!(rt; found.as_str() == "#7 a.4 data 0000000068656c6c6f\n");
    let none = Reply::DataBytes(Bytes::new(Vec::new(rt.alloc())));
    let none = reply_line(rt.alloc(), 8, &lane, 5, &none)?;
    assert!(rt; none.as_str() == "#8 a.5 data -\n");
    let refused = reply_line(rt.alloc(), 9, &lane, 6, &Reply::AppendOnly)?;
    assert!(rt; refused.as_str() == "#9 a.6 appendonly\n");
    let places = places_line(rt.alloc(), 1, 0, 2, 135)?;
    assert!(rt; places.as_str() == "places host=1 drive=0 reads=2 writes=135\n");
    Ok(())
}

#[test]
fn replies_of_functions_are_printed(rt: HostRuntime) -> Result<(), Fail> {
    let lane = text(rt.alloc(), "a")?;
    let trap = Reply::TrapAccess {
        address: 0x1_0000_0ABC,
        size: 8,
        slot: 3,
    };
    let trap = reply_line(rt.alloc(), 1, &lane, 1, &trap)?;
    assert!(rt; trap.as_str() == "#1 a.1 trap access 0x100000abc 8 3\n");
    let bad = Reply::BadCode {
        kind: CodeKind::Verify(VerifyKind::Middle),
        slot: 0,
    };
    let bad = reply_line(rt.alloc(), 2, &lane, 2, &bad)?;
    assert!(rt; bad.as_str() == "#2 a.2 badcode middle 0\n");
    Ok(())
}

#[test]
fn a_transcript_is_read(rt: HostRuntime) -> Result<(), Fail> {
    let script = script(rt.alloc())?;
    let text =
        b"#1 a.1 len 7\n#2 b.1 data -\n#3 c.1 trap access 0xff 8 2\nplaces host=1 drive=0 reads=2 writes=3";
    let transcript = read_transcript(rt.alloc(), text, &script)?;
    let [first, second, third] = transcript.entries.as_slice() else {
        panic!(rt; "there are three replies")
    };
    assert!(rt; matches!(first, (0, 1, Reply::Len(7))));
    assert!(rt; matches!(second, (1, 1, Reply::DataBytes(_))));
    assert!(rt;
        matches!(
            third,
            (
                2,
                1,
                Reply::TrapAccess {
                    address: 255,
                    size: 8,
                    slot: 2
                }
            )
        )
    );
    Ok(())
}

#[test]
fn the_first_refused_line_is_named(rt: HostRuntime) -> Result<(), Fail> {
    let script = script(rt.alloc())?;
    let cases = [
        ("", 1),
        ("\n", 1),
        ("#1 a.1 len 7\n", 2),
        ("#2 a.1 len 7", 1),
        ("#1 a.1 len 07", 1),
        ("#1 a.1  len 7", 1),
        ("#1 a.1 len 18446744073709551616", 1),
        ("#1 a.4294967296 len 7", 1),
        ("#1 a.0 len 7", 1),
        ("#1 d.1 len 7", 1),
        ("#1 a.1 id 7", 1),
        ("#1 b.1 data", 1),
        ("#1 b.1 data 0A", 1),
        ("#1 b.1 data 0", 1),
        ("#1 a.9 id 7\nplaces host=0 drive=0 reads=0", 2),
        ("places host=0 drive=0 reads=0 writes=0\n\n", 2),
    ];
    for (text, line) in cases {
        let found = read_transcript(rt.alloc(), text.as_bytes(), &script).err();
        assert_eq!(rt; found, Some(TranscriptErr::Form { line }), "{text}");
    }
    Ok(())
}
