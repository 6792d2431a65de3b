//! The words of each command that neither waits nor starts threads, behind its own word.
ghost use Rattle.std.specs.Prelude.{◌≡◌, map, string_bytes, IfOk, OnErr, IsSome};
ghost use Rattle.command_words.specs.Commands.{make_of, mkimage_of, asm_of, disasm_of, verify_of, check_named, check_of, solo_named, solo_of, bench_with, bench_named, bench_of, elf_named, elf_of, predc_named, predc_of, select_named, select_of};

use crate::command::Quiet;
use crate::numbers::{decimal_number, number_in};
use crate::options::{Setup, solo_options};
use crate::places::{Width, are_files, are_two, drive_of, is_file_word, text, width_of};
use page_base::Geometry;
use std::alloc::{AllocError, Global};

fn make_of(
    alloc: Global,
    out: &str,
    geometry: Option<Geometry>,
) -> Result<Option<Quiet>, AllocError>
    ensures ok { IfOk result (λ command. command ≡ make_of out.now geometry) }
    ensures err { OnErr result (IsSome (make_of out.now geometry)) }
{
    let Some(geometry) = geometry else {
        return Ok(None);
    };
    if !is_file_word(out) {
        return Ok(None);
    }
    let out = text(alloc, out)?;
    Ok(Some(Quiet::MakeImage { out, geometry }))
}

pub fn mkimage_of(alloc: Global, words: &[String]) -> Result<Option<Quiet>, AllocError>
    ensures ok { IfOk result (λ command. command ≡ mkimage_of (map string_bytes words.now)) }
    ensures err { OnErr result (IsSome (mkimage_of (map string_bytes words.now))) }
{
    let [out, blocks, dies] = words else {
        return Ok(None);
    };
    let geometry = drive_of(blocks.as_bytes(), dies.as_bytes());
    make_of(alloc, out.as_str(), geometry)
}

pub fn asm_of(alloc: Global, words: &[String]) -> Result<Option<Quiet>, AllocError>
    ensures ok { IfOk result (λ command. command ≡ asm_of (map string_bytes words.now)) }
    ensures err { OnErr result (IsSome (asm_of (map string_bytes words.now))) }
{
    let [source, out] = words else {
        return Ok(None);
    };
    if !are_two(source.as_str(), out.as_str()) {
        return Ok(None);
    }
    let source = text(alloc, source.as_str())?;
    let out = text(alloc, out.as_str())?;
    Ok(Some(Quiet::Asm { source, out }))
}

pub fn disasm_of(alloc: Global, words: &[String]) -> Result<Option<Quiet>, AllocError>
    ensures ok { IfOk result (λ command. command ≡ disasm_of (map string_bytes words.now)) }
    ensures err { OnErr result (IsSome (disasm_of (map string_bytes words.now))) }
{
    let [object] = words else {
        return Ok(None);
    };
    if !is_file_word(object.as_str()) {
        return Ok(None);
    }
    let object = text(alloc, object.as_str())?;
    Ok(Some(Quiet::Disasm { object }))
}

pub fn verify_of(alloc: Global, words: &[String]) -> Result<Option<Quiet>, AllocError>
    ensures ok { IfOk result (λ command. command ≡ verify_of (map string_bytes words.now)) }
    ensures err { OnErr result (IsSome (verify_of (map string_bytes words.now))) }
{
    let [object] = words else {
        return Ok(None);
    };
    if !is_file_word(object.as_str()) {
        return Ok(None);
    }
    let object = text(alloc, object.as_str())?;
    Ok(Some(Quiet::Verify { object }))
}

fn check_named(
    alloc: Global,
    image: &str,
    script: &str,
    transcript: &str,
) -> Result<Option<Quiet>, AllocError>
    ensures ok { IfOk result (λ command. command ≡ check_named image.now script.now transcript.now) }
    ensures err { OnErr result (IsSome (check_named image.now script.now transcript.now)) }
{
    if !are_files(image, script, transcript) {
        return Ok(None);
    }
    let image = text(alloc, image)?;
    let script = text(alloc, script)?;
    let transcript = text(alloc, transcript)?;
    Ok(Some(Quiet::Check {
        image,
        script,
        transcript,
    }))
}

pub fn check_of(alloc: Global, words: &[String]) -> Result<Option<Quiet>, AllocError>
    ensures ok { IfOk result (λ command. command ≡ check_of (map string_bytes words.now)) }
    ensures err { OnErr result (IsSome (check_of (map string_bytes words.now))) }
{
    let [image, script, transcript] = words else {
        return Ok(None);
    };
    check_named(alloc, image.as_str(), script.as_str(), transcript.as_str())
}

fn solo_named(
    alloc: Global,
    image: &str,
    script: &str,
    out: &str,
    setup: Option<Setup>,
) -> Result<Option<Quiet>, AllocError>
    ensures ok { IfOk result (λ command. command ≡ solo_named image.now script.now out.now setup) }
    ensures err { OnErr result (IsSome (solo_named image.now script.now out.now setup)) }
{
    let Some(setup) = setup else {
        return Ok(None);
    };
    if !are_files(image, script, out) {
        return Ok(None);
    }
    let image = text(alloc, image)?;
    let script = text(alloc, script)?;
    let out = text(alloc, out)?;
    Ok(Some(Quiet::Solo {
        image,
        script,
        out,
        setup,
    }))
}

pub fn solo_of(alloc: Global, words: &[String]) -> Result<Option<Quiet>, AllocError>
    ensures ok { IfOk result (λ command. command ≡ solo_of (map string_bytes words.now)) }
    ensures err { OnErr result (IsSome (solo_of (map string_bytes words.now))) }
{
    let [image, script, out, options @ ..] = words else {
        return Ok(None);
    };
    let setup = solo_options(options);
    solo_named(alloc, image.as_str(), script.as_str(), out.as_str(), setup)
}

fn bench_with(start: Option<u64>, calls: Option<u32>) -> Option<Quiet>
    ensures { result ≡ bench_with start calls }
{
    let start = start?;
    let calls = calls?;
    Some(Quiet::Bench { start, calls })
}

#[tactic(auto, unfolding(crate::specs::Commands::bench_named))]
fn bench_named(start: &str, calls: &str) -> Option<Quiet>
    ensures { result ≡ bench_named start.now calls.now }
{
    let start = decimal_number(start.as_bytes());
    let calls = number_in(0, 9995, calls.as_bytes());
    bench_with(start, calls)
}

// No memory is wanted.
pub fn bench_of(words: &[String]) -> Option<Quiet>
    ensures { result ≡ bench_of (map string_bytes words.now) }
{
    let [start, calls] = words else {
        return None;
    };
    bench_named(start.as_str(), calls.as_str())
}

fn elf_named(
    alloc: Global,
    object: &str,
    section: &str,
    out: &str,
) -> Result<Option<Quiet>, AllocError>
    ensures ok { IfOk result (λ command. command ≡ elf_named object.now section.now out.now) }
    ensures err { OnErr result (IsSome (elf_named object.now section.now out.now)) }
{
    if !are_files(object, section, out) {
        return Ok(None);
    }
    let object = text(alloc, object)?;
    let section = text(alloc, section)?;
    let out = text(alloc, out)?;
    Ok(Some(Quiet::Elf {
        object,
        section,
        out,
    }))
}

pub fn elf_of(alloc: Global, words: &[String]) -> Result<Option<Quiet>, AllocError>
    ensures ok { IfOk result (λ command. command ≡ elf_of (map string_bytes words.now)) }
    ensures err { OnErr result (IsSome (elf_of (map string_bytes words.now))) }
{
    let [object, section, out] = words else {
        return Ok(None);
    };
    elf_named(alloc, object.as_str(), section.as_str(), out.as_str())
}

fn predc_named(
    alloc: Global,
    pred: &str,
    out: &str,
    width: Option<Width>,
) -> Result<Option<Quiet>, AllocError>
    ensures ok { IfOk result (λ command. command ≡ predc_named pred.now out.now width) }
    ensures err { OnErr result (IsSome (predc_named pred.now out.now width)) }
{
    let Some(width) = width else {
        return Ok(None);
    };
    if !are_two(pred, out) {
        return Ok(None);
    }
    let pred = text(alloc, pred)?;
    let out = text(alloc, out)?;
    Ok(Some(Quiet::CompilePred { pred, width, out }))
}

pub fn predc_of(alloc: Global, words: &[String]) -> Result<Option<Quiet>, AllocError>
    ensures ok { IfOk result (λ command. command ≡ predc_of (map string_bytes words.now)) }
    ensures err { OnErr result (IsSome (predc_of (map string_bytes words.now))) }
{
    let [pred, width, out] = words else {
        return Ok(None);
    };
    let width = width_of(width.as_str());
    predc_named(alloc, pred.as_str(), out.as_str(), width)
}

fn select_named(
    alloc: Global,
    image: &str,
    file: &str,
    pred: &str,
    width: Option<Width>,
) -> Result<Option<Quiet>, AllocError>
    ensures ok { IfOk result (λ command. command ≡ select_named image.now file.now pred.now width) }
    ensures err { OnErr result (IsSome (select_named image.now file.now pred.now width)) }
{
    let Some(width) = width else {
        return Ok(None);
    };
    if !are_files(image, file, pred) {
        return Ok(None);
    }
    let image = text(alloc, image)?;
    let file = text(alloc, file)?;
    let pred = text(alloc, pred)?;
    Ok(Some(Quiet::Select {
        image,
        file,
        pred,
        width,
    }))
}

pub fn select_of(alloc: Global, words: &[String]) -> Result<Option<Quiet>, AllocError>
    ensures ok { IfOk result (λ command. command ≡ select_of (map string_bytes words.now)) }
    ensures err { OnErr result (IsSome (select_of (map string_bytes words.now))) }
{
    let [image, file, pred, width] = words else {
        return Ok(None);
    };
    let width = width_of(width.as_str());
    select_named(alloc, image.as_str(), file.as_str(), pred.as_str(), width)
}
