//! The words and their command.
ghost use Rattle.std.specs.Prelude.{◌≡◌, map, string_bytes, IfOk, OnErr, IsSome};
ghost use Rattle.command_words.specs.Places.{param_of};
ghost use Rattle.command_words.specs.Commands.{scan_with, scan_of, scan_command, run_named, run_of, quiet_named, quiet_of, asked_quiet, asked_scan, asked_run, command_named, command_of};

use crate::command::{Command, Quiet, Run, Scan};
use crate::options::{Crew, Setup, run_options};
use crate::params::{Param, param_of};
use crate::pieces::{Pieces, pieces_of};
use crate::places::{are_files, text};
use crate::quiet::{
    asm_of, bench_of, check_of, disasm_of, elf_of, mkimage_of, predc_of, select_of, solo_of,
    verify_of,
};
use std::alloc::{AllocError, Global};

// No word is judged here.
fn named_scan(
    alloc: Global,
    image: &str,
    file: &str,
    object: &str,
    pieces: Pieces,
    param: Param,
) -> Result<Scan, AllocError>
    ensures { IfOk result (λ scan. scan ≡ record { image = image.now; file = file.now; object = object.now; pieces = pieces; param = param }) }
{
    let image = text(alloc, image)?;
    let file = text(alloc, file)?;
    let object = text(alloc, object)?;
    Ok(Scan {
        image,
        file,
        object,
        pieces,
        param,
    })
}

fn scan_with(
    alloc: Global,
    image: &str,
    file: &str,
    object: &str,
    pieces: Option<Pieces>,
    param: &str,
) -> Result<Option<Scan>, AllocError>
    ensures ok { IfOk result (λ command. command ≡ scan_with image.now file.now object.now pieces (param_of param.now)) }
    ensures err { OnErr result (IsSome (scan_with image.now file.now object.now pieces (param_of param.now))) }
{
    let Some(pieces) = pieces else {
        return Ok(None);
    };
    if !are_files(image, file, object) {
        return Ok(None);
    }
    let Some(param) = param_of(alloc, param.as_bytes())? else {
        return Ok(None);
    };
    Ok(Some(named_scan(alloc, image, file, object, pieces, param)?))
}

fn scan_of(alloc: Global, words: &[String]) -> Result<Option<Scan>, AllocError>
    ensures ok { IfOk result (λ command. command ≡ scan_of (map string_bytes words.now)) }
    ensures err { OnErr result (IsSome (scan_of (map string_bytes words.now))) }
{
    let [image, file, object, chunk, fuel, cap, param] = words else {
        return Ok(None);
    };
    let pieces = pieces_of(chunk.as_str(), fuel.as_str(), cap.as_str());
    scan_with(
        alloc,
        image.as_str(),
        file.as_str(),
        object.as_str(),
        pieces,
        param.as_str(),
    )
}

fn run_named(
    alloc: Global,
    image: &str,
    script: &str,
    out: &str,
    options: Option<(Setup, Crew)>,
) -> Result<Option<Run>, AllocError>
    ensures ok { IfOk result (λ command. command ≡ run_named image.now script.now out.now options) }
    ensures err { OnErr result (IsSome (run_named image.now script.now out.now options)) }
{
    let Some((setup, crew)) = options else {
        return Ok(None);
    };
    if !are_files(image, script, out) {
        return Ok(None);
    }
    let image = text(alloc, image)?;
    let script = text(alloc, script)?;
    let out = text(alloc, out)?;
    Ok(Some(Run {
        image,
        script,
        out,
        setup,
        crew,
    }))
}

fn run_of(alloc: Global, words: &[String]) -> Result<Option<Run>, AllocError>
    ensures ok { IfOk result (λ command. command ≡ run_of (map string_bytes words.now)) }
    ensures err { OnErr result (IsSome (run_of (map string_bytes words.now))) }
{
    let [image, script, out, options @ ..] = words else {
        return Ok(None);
    };
    let options = run_options(options);
    run_named(
        alloc,
        image.as_str(),
        script.as_str(),
        out.as_str(),
        options,
    )
}

#[tactic(auto, unfolding(crate::specs::Commands::quiet_named))]
fn quiet_named(alloc: Global, verb: &str, rest: &[String]) -> Result<Option<Quiet>, AllocError>
    ensures ok { IfOk result (λ command. command ≡ quiet_named verb.now (map string_bytes rest.now)) }
    ensures err { OnErr result (IsSome (quiet_named verb.now (map string_bytes rest.now))) }
{
    match verb {
        "mkimage" => mkimage_of(alloc, rest),
        "asm" => asm_of(alloc, rest),
        "disasm" => disasm_of(alloc, rest),
        "verify" => verify_of(alloc, rest),
        "check" => check_of(alloc, rest),
        "solo" => solo_of(alloc, rest),
        "bench" => Ok(bench_of(rest)),
        "elf" => elf_of(alloc, rest),
        "predc" => predc_of(alloc, rest),
        "select" => select_of(alloc, rest),
        _ => Ok(None),
    }
}

/// The command of the words, of those that neither wait nor start threads: every one but `run` and `scan`. None
/// where the words are no such command, for which no memory is wanted.
pub fn quiet_of(alloc: Global, words: &[String]) -> Result<Option<Quiet>, AllocError>
    ensures ok { IfOk result (λ command. command ≡ quiet_of (map string_bytes words.now)) }
    ensures err { OnErr result (IsSome (quiet_of (map string_bytes words.now))) }
{
    let [verb, rest @ ..] = words else {
        return Ok(None);
    };
    quiet_named(alloc, verb.as_str(), rest)
}

/// The words `scan IMAGE FILE OBJ CHUNK FUEL CAP PARAM`. None where the words are others, for which no memory is
/// wanted.
pub fn scan_command(alloc: Global, words: &[String]) -> Result<Option<Scan>, AllocError>
    ensures ok { IfOk result (λ command. command ≡ scan_command (map string_bytes words.now)) }
    ensures err { OnErr result (IsSome (scan_command (map string_bytes words.now))) }
{
    let [verb, rest @ ..] = words else {
        return Ok(None);
    };
    match verb.as_str() {
        "scan" => scan_of(alloc, rest),
        _ => Ok(None),
    }
}

#[tactic(auto, using(crate::proofs::Asked::quiet_asked))]
fn asked_quiet(alloc: Global, verb: &str, rest: &[String]) -> Result<Option<Command>, AllocError>
    ensures ok { IfOk result (λ command. command ≡ asked_quiet (quiet_named verb.now (map string_bytes rest.now))) }
    ensures err { OnErr result (IsSome (asked_quiet (quiet_named verb.now (map string_bytes rest.now)))) }
{
    match quiet_named(alloc, verb, rest)? {
        Some(quiet) => Ok(Some(Command::Quiet(quiet))),
        None => Ok(None),
    }
}

#[tactic(auto, using(crate::proofs::Asked::scan_asked))]
fn asked_scan(alloc: Global, words: &[String]) -> Result<Option<Command>, AllocError>
    ensures ok { IfOk result (λ command. command ≡ asked_scan (scan_of (map string_bytes words.now))) }
    ensures err { OnErr result (IsSome (asked_scan (scan_of (map string_bytes words.now)))) }
{
    match scan_of(alloc, words)? {
        Some(scan) => Ok(Some(Command::Scan(scan))),
        None => Ok(None),
    }
}

#[tactic(auto, using(crate::proofs::Asked::run_asked))]
fn asked_run(alloc: Global, words: &[String]) -> Result<Option<Command>, AllocError>
    ensures ok { IfOk result (λ command. command ≡ asked_run (run_of (map string_bytes words.now))) }
    ensures err { OnErr result (IsSome (asked_run (run_of (map string_bytes words.now)))) }
{
    match run_of(alloc, words)? {
        Some(run) => Ok(Some(Command::Run(run))),
        None => Ok(None),
    }
}

fn command_named(alloc: Global, verb: &str, rest: &[String]) -> Result<Option<Command>, AllocError>
    ensures ok { IfOk result (λ command. command ≡ command_named verb.now (map string_bytes rest.now)) }
    ensures err { OnErr result (IsSome (command_named verb.now (map string_bytes rest.now))) }
{
    match verb {
        "scan" => asked_scan(alloc, rest),
        "run" => asked_run(alloc, rest),
        _ => asked_quiet(alloc, verb, rest),
    }
}

/// The command of the words; none where they are outside the grammar, for which no memory is wanted.
pub fn command_of(alloc: Global, words: &[String]) -> Result<Option<Command>, AllocError>
    ensures ok { IfOk result (λ command. command ≡ command_of (map string_bytes words.now)) }
    ensures err { OnErr result (IsSome (command_of (map string_bytes words.now))) }
{
    let [verb, rest @ ..] = words else {
        return Ok(None);
    };
    command_named(alloc, verb.as_str(), rest)
}
