use crate::scripts::{PUT, RET, answers, empty_room, printed};
use std::test::Fail;

const NINETY_SEVEN: &str =
    "xxxxxxxxxxxxxxxxxxxxxxxxxxxxxxxxxxxxxxxxxxxxxxxxxxxxxxxxxxxxxxxxxxxxxxxxxxxxxxxxxxxxxxxxxxxxxxxxx";

#[test]
fn calls_that_need_no_page(rt: HostRuntime) -> Result<(), Fail> {
    let alloc = rt.alloc();
    let mut room = empty_room(alloc);
    let create = format!(in alloc; "create {NINETY_SEVEN}")?;
    let load = format!(in alloc; "load {NINETY_SEVEN} func put")?;
    let calls = [
        ("create f", "id 1"),
        ("create f", "exists"),
        (create.as_str(), "badname"),
        ("open f", "id 1"),
        ("open g", "nofile"),
        ("stat f", "len 0"),
        ("stat g", "nofile"),
        ("seal g", "nofile"),
        ("remove g", "nofile"),
        ("unload put", "nofn"),
        ("load x code hex:", "badcode empty 0"),
        (load.as_str(), "badname"),
        ("load put func put", "ok"),
        ("load put func put", "exists"),
        ("unload put", "ok"),
        ("unload put", "nofn"),
        ("seal f", "ok"),
        ("seal f", "ok"),
        ("remove f", "ok"),
        ("open f", "nofile"),
        ("create f", "id 2"),
    ];
    let places = "host=0 drive=0 reads=0 writes=0";
    assert!(rt; answers(alloc, "solo - S -", &mut room, PUT, &calls, places)?);
    Ok(())
}

#[test]
fn the_65th_function_has_no_room(rt: HostRuntime) -> Result<(), Fail> {
    let alloc = rt.alloc();
    let mut room = empty_room(alloc);
    let mut script = String::from_str(alloc, PUT)?;
    let mut wanted = String::new(alloc);
    for i in 1..66u32 {
        let reply = if i == 65 { "fnfull" } else { "ok" };
        script.push_str(format!(in alloc; "a: load f{i} func put\n")?.as_str())?;
        wanted.push_str(format!(in alloc; "#{i} a.{i} {reply}\n")?.as_str())?;
    }
    wanted.push_str("places host=0 drive=0 reads=0 writes=0\n")?;
    let out = printed(alloc, "solo - S -", &mut room, script.as_str())?;
    assert!(rt; out.bytes() == wanted.as_bytes());
    Ok(())
}

// A drive of two blocks has 131 pages of meta data: the `sync` writes these and both blocks.
#[test]
fn calls_on_the_bytes_of_a_file(rt: HostRuntime) -> Result<(), Fail> {
    let alloc = rt.alloc();
    let mut room = empty_room(alloc);
    let _made = printed(alloc, "mkimage m 2 1", &mut room, "")?;
    let calls = [
        ("read f 0 262145", "toolong"),
        ("read f 0 1", "nofile"),
        ("create f", "id 1"),
        ("write f 0 fill:00*262145", "toolong"),
        ("write g 0 text:x", "nofile"),
        ("write f 268435456 text:x", "toobig"),
        ("write f 8192 text:x", "nospace"),
        ("write f 4094 text:hello", "ok"),
        ("stat f", "len 4099"),
        ("read f 4090 20", "data 0000000068656c6c6f"),
        ("read f 4099 10", "data -"),
        ("append f fill:00*262145", "toolong"),
        ("append g text:x", "nofile"),
        ("append f text:ab", "at 4099"),
        ("append f hex:", "at 4101"),
        ("append f fill:01*4092", "nospace"),
        ("trunc g 0", "nofile"),
        ("trunc f 268435457", "toobig"),
        ("trunc f 8193", "nospace"),
        ("trunc f 4096", "ok"),
        ("trunc f 4097", "ok"),
        ("read f 4094 9", "data 686500"),
        ("seal f", "ok"),
        ("write f 0 text:x", "appendonly"),
        ("trunc f 0", "appendonly"),
        ("append f text:z", "at 4097"),
        ("sync", "ok"),
    ];
    let places = "host=0 drive=0 reads=0 writes=133";
    assert!(rt;
        answers(
            alloc,
            "solo m S w",
            &mut room,
            "",
            &calls[..26],
            "host=0 drive=0 reads=0 writes=133"
        )?
    );
    assert!(rt; answers(alloc, "solo m S -", &mut room, "", &calls, places)?);
    let again = [("open f", "id 1"), ("read f 4094 9", "data 6865007a")];
    let places = "host=0 drive=0 reads=2 writes=0";
    assert!(rt; answers(alloc, "solo w S -", &mut room, "", &again, places)?);
    Ok(())
}

// The fuel, the slots and the addresses are those of `put` and `ret`.
#[test]
fn calls_with_a_function_at_both_sides(rt: HostRuntime) -> Result<(), Fail> {
    let alloc = rt.alloc();
    let mut room = empty_room(alloc);
    let _made = printed(alloc, "mkimage m 2 1", &mut room, "")?;
    let head = format!(in alloc; "{PUT}{RET}")?;
    let calls = [
        ("load put func put", "ok"),
        ("load ret func ret", "ok"),
        ("readl f 0 0 ret 10 4 hex:", "nofile"),
        ("create f", "id 1"),
        ("readl f 0 0 no 10 4 hex:", "nofn"),
        ("readl f 0 262145 ret 10 4 hex:", "toolong"),
        ("readl f 0 0 ret 4294967297 4 hex:", "toolong"),
        ("readl f 0 0 ret 10 4 hex:0400000000000000", "res 00000000"),
        ("readl f 0 0 ret 10 4 hex:0500000000000000", "trap outlen 5"),
        ("readl f 0 0 ret 10 4 hex:", "trap access 0x400000000 8 1"),
        ("readl f 0 0 ret 2 4 hex:0400000000000000", "spent"),
        ("write f 0 text:abc", "ok"),
        ("writel f 0 3 put 100 hex: text:Z", "val 7"),
        (
            "writel f 0 3 put 100 hex: hex:",
            "trap access 0x200000000 1 2",
        ),
        (
            "writel f 0 1 put 100 hex: text:Y",
            "trap access 0x300000001 1 3",
        ),
        ("writel f 0 3 put 5 hex: text:X", "spent"),
        ("writel f 8192 2 put 100 hex: text:W", "nospace"),
        ("writel f 268435455 2 put 100 hex: text:V", "toobig"),
        ("writel f 0 2 no 100 hex: text:V", "nofn"),
        ("writel g 0 2 put 100 hex: text:V", "nofile"),
        ("read f 0 9", "data 615a63"),
        ("seal f", "ok"),
        ("writel f 0 2 put 100 hex: text:V", "appendonly"),
        ("readl f 0 3 put 100 2 hex:", "trap outlen 7"),
        ("readl f 0 3 put 100 8 hex:", "res 00610000000000"),
    ];
    for (words, places) in [
        (
            "solo m S - --place host",
            "host=11 drive=0 reads=0 writes=0",
        ),
        (
            "solo m S - --place drive",
            "host=0 drive=11 reads=0 writes=0",
        ),
    ] {
        let told = answers(alloc, words, &mut room, head.as_str(), &calls, places)?;
        assert!(rt; told, "at {words}");
    }
    Ok(())
}
