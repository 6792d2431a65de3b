use crate::{Command, Crew, DieKind, Quiet, Setup, command_of, quiet_of, scan_command};
use dispatcher::Place;
use std::alloc::{AllocError, Global};
use std::test::Fail;

fn words_of(alloc: Global, line: &str) -> Result<Vec<String>, AllocError> {
    let mut words = Vec::new(alloc);
    for word in line.split(' ') {
        words.push(String::from_str(alloc, word)?)?;
    }
    Ok(words)
}

// Whether the words are outside the grammar.
fn is_outside(alloc: Global, line: &str) -> Result<bool, AllocError> {
    let words = words_of(alloc, line)?;
    Ok(command_of(alloc, &words)?.is_none())
}

fn setup_of(alloc: Global, line: &str) -> Result<Option<Setup>, AllocError> {
    let words = words_of(alloc, line)?;
    match quiet_of(alloc, &words)? {
        Some(Quiet::Solo { setup, .. }) => Ok(Some(setup)),
        _ => Ok(None),
    }
}

fn run_of(alloc: Global, line: &str) -> Result<Option<(Setup, Crew)>, AllocError> {
    let words = words_of(alloc, line)?;
    match command_of(alloc, &words)? {
        Some(Command::Run(run)) => Ok(Some((run.setup, run.crew))),
        _ => Ok(None),
    }
}

#[test]
fn commands_have_their_words(rt: HostRuntime) -> Result<(), Fail> {
    let alloc = rt.alloc();
    for line in [
        "mkimage o 65536 16",
        "asm S -",
        "disasm O",
        "verify -",
        "check - S T",
        "solo - S -",
        "run - S -",
        "bench 18446744073709551615 9995",
        "elf O .text K",
        "scan img log L 262144 4294967296 0 hex:",
        "scan img log L 1 0 4096 hex:00fFAb",
        "predc P 4096 O",
        "select img f P 1",
    ] {
        assert!(rt; !is_outside(alloc, line)?, "at {line}");
    }
    Ok(())
}

#[test]
fn other_words_are_outside(rt: HostRuntime) -> Result<(), Fail> {
    let alloc = rt.alloc();
    let none: [String; 0] = [];
    assert!(rt; command_of(alloc, &none)?.is_none());
    for line in [
        "",
        "--help",
        "Solo - S -",
        "solo - S",
        "solo - S - -",
        "solo - --S -",
        "solo - S - --place",
        "solo - S - --place here",
        "solo - S - --place host --place host",
        "solo - S - --workers 2",
        "run - S - --workers 0",
        "run - S - --workers 9",
        "run - S - --flushers 5",
        "run - S - --workers 02",
        "run - S - --workers +2",
        "run - S - --die mem --workers 1 --die mem",
        "bench 18446744073709551616 1",
        "bench 1 9996",
        "elf O --text K",
        "scan img f O 0 1 1 hex:",
        "scan img f O 262145 1 1 hex:",
        "scan img f O 1 4294967297 1 hex:",
        "scan img f O 1 1 4097 hex:",
        "scan img f O 1 1 1 hex:0",
        "scan img f O 1 1 1 hex:0g",
        "scan img f O 1 1 1 00",
        "predc P 0 O",
        "select img f P 4097",
        "mkimage o 0 1",
    ] {
        assert!(rt; is_outside(alloc, line)?, "at {line}");
    }
    Ok(())
}

#[test]
fn options_stand_in_any_order(rt: HostRuntime) -> Result<(), Fail> {
    let alloc = rt.alloc();
    let plain = Setup {
        place: Place::Auto,
        dies: DieKind::Mem,
    };
    let other = Setup {
        place: Place::Host,
        dies: DieKind::Mirror,
    };
    assert_eq!(rt; setup_of(alloc, "solo - S -")?, Some(plain));
    assert_eq!(rt;
        setup_of(alloc, "solo - S - --die mirror --place host")?,
        Some(other)
    );
    assert_eq!(rt;
        setup_of(alloc, "solo - S - --place host --die mirror")?,
        Some(other)
    );
    let crew = Crew {
        workers: 2,
        flushers: 1,
    };
    assert_eq!(rt; run_of(alloc, "run - S -")?, Some((plain, crew)));
    let crew = Crew {
        workers: 8,
        flushers: 0,
    };
    assert_eq!(rt;
        run_of(
            alloc,
            "run - S - --flushers 0 --die mirror --workers 8 --place host"
        )?,
        Some((other, crew))
    );
    Ok(())
}

#[test]
fn a_scan_has_its_numbers(rt: HostRuntime) -> Result<(), Fail> {
    let alloc = rt.alloc();
    let words = words_of(alloc, "scan img log L 1 4294967296 4096 hex:00fFAb")?;
    let Some(scan) = scan_command(alloc, &words)? else {
        return Err("no scan")?;
    };
    assert_eq!(rt; scan.file.as_str(), "log");
    assert_eq!(rt;
        (scan.pieces.chunk(), scan.pieces.fuel(), scan.pieces.cap()),
        (1, 4_294_967_296, 4096)
    );
    assert_eq!(rt; scan.param.bytes().as_slice(), [0, 255, 171].as_slice());
    let words = words_of(alloc, "verify O")?;
    assert!(rt; scan_command(alloc, &words)?.is_none());
    Ok(())
}
