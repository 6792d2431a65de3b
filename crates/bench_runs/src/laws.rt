//! Laws, each the contract of a function that takes and gives nothing.
ghost use Rattle.std.specs.Prelude.{◌≡◌, ℕ, List, [], Ok};
ghost use Rattle.image_format.specs.declared.meta.Meta.{Meta};
ghost use Rattle.script_words.specs.declared.script.Script.{Script};
ghost use Rattle.core_state.specs.State.{Page};
ghost use Rattle.bench_runs.specs.Benched.{HasBenched};
ghost use Rattle.bench_script.specs.Script.{script};
ghost use Rattle.call_text.specs.Scripts.{read_script};

/// Of a script without fault lines over one image `bench` prints one text: by its start and its number of drawn lines alone.
pub fn bench_is_one()
    ensures { (meta : Meta) (pages : List Page) (script : Script) (start calls : ℕ) (text other : List ℕ) → script.faults ≡ [] →
        HasBenched meta pages script start calls text → HasBenched meta pages script start calls other → text ≡ other }
{}

/// A script that is drawn has no fault lines, where it reads as one.
pub fn drawn_scripts_have_no_faults()
    ensures { (start calls : ℕ) (drawn : Script) → read_script (script start calls) ≡ Ok drawn → drawn.faults ≡ [] }
{}
