//! `bench START CALLS`: a script that is drawn from a number, run over an empty drive, and the two lines that tell of its run.
ghost use Rattle.std.specs.Prelude.{◌≡◌, ℕ, List, Option, Ok, IfOk};
ghost use Rattle.call_text.specs.Order.{IsOrdered, IsWithinLimits};
ghost use Rattle.edge_io.specs.Edges.{Names};
ghost use Rattle.image_format.specs.Image.{read_image};
ghost use Rattle.image_format.specs.Tables.{Mounts};
ghost use Rattle.mounted_systems.specs.Dealt.{AreMounted};
ghost use Rattle.plain_image.specs.Drives.{drive_of};
ghost use Rattle.plain_image.specs.Opened.{opened};
ghost use Rattle.stack_top.specs.Benching.{bench_on, bench_work};
ghost use Rattle.stack_top.specs.Decided.{IsDecided};
ghost use Rattle.stack_top.specs.Works.{Allows, benches_on};

use crate::acts::print;
use crate::images::open_dash;
use crate::plan::Plan;
use crate::refusal::Refusal;
use crate::scripts::script_in;
use bench_runs::bench_lines;
use bench_script::make_script;
use command_words::DieKind;
use plain_image::OpenedImage;
use script_words::Script;
use std::alloc::{AllocError, Global};

// The plan of a run of a drawn script over the drive of an image, whose bytes the calls don't tell.
fn benched(
    alloc: Global,
    image: OpenedImage,
    script: &Script,
    start: u64,
    calls: u32,
) -> Result<Plan, AllocError>
    requires mounted { AreMounted image.meta image.pages.items }
    requires ordered { IsOrdered script.now }
    requires limits { IsWithinLimits script.now }
    ensures { IfOk result (λ plan. (bytes : List ℕ) → Mounts bytes image.meta image.pages.items (read_image bytes) → drive_of bytes ≡ Ok image.drive →
        Allows (benches_on (opened bytes image.drive) script.now start calls) plan) }
{
    let lines = bench_lines(alloc, image.meta, image.pages, script, start, calls)?;
    let acts = print(alloc, lines)?;
    Ok(Plan::of(acts))
}

// The drawn script, over an image.
fn bench_on(alloc: Global, image: OpenedImage, start: u64, calls: u32) -> Result<Plan, Refusal>
    requires mounted { AreMounted image.meta image.pages.items }
    ensures decided { (bytes : List ℕ) → Mounts bytes image.meta image.pages.items (read_image bytes) → drive_of bytes ≡ Ok image.drive →
        (told : Option Names) (before now : ℕ) → IsDecided told before now (bench_on (opened bytes image.drive) start calls) result }
{
    let text = make_script(alloc, start, calls)?;
    let dies = image.drive.geometry.dies();
    let script = script_in(alloc, text.as_str().as_bytes(), DieKind::Ftl, dies)?;
    let plan = benched(alloc, image, &script, start, calls)?;
    Ok(plan)
}

// The plan of `bench START CALLS`.
pub fn bench(alloc: Global, start: u64, calls: u32) -> Result<Plan, Refusal>
    ensures decided { (told : Option Names) (before now : ℕ) → IsDecided told before now (bench_work start calls) result }
{
    let opened = open_dash(alloc)?;
    bench_on(alloc, opened, start, calls)
}
