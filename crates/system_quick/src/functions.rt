//! The table of functions: one comes, or goes.
ghost use Rattle.std.specs.Prelude.{◌≡◌, ◌≤◌, ◌+◌, ◌-◌, ◌++◌, ◌∷◌, [], List, length, Ok, true, bytes_eq, map, is_ok, vec_capacity};
ghost use Rattle.std.specs.List.{position};
ghost use Rattle.sbpf_insn.specs.declared.insn.Insn.{Insn};
ghost use Rattle.sbpf_insn.specs.Cells.{slots};
ghost use Rattle.plain_files.specs.Lists.{without};
ghost use Rattle.system_state.specs.Cores.{function_of};
ghost use Rattle.system_state.specs.Kept.{AreFunctions};
ghost use Rattle.system_quick.specs.Tables.{told, refusal_of, has_name, loaded, load_reply, load_functions};

use call_checks::function_named;
use dispatcher::Profile;
use name_table::Name;
use plain_files::{CodeKind, Reply, Word};
use sbpf_insn::Code;
use std::mem;
use system_state::Function;

/// The most functions.
const MOST_FUNCTIONS: usize = 64;

/// What the bytes of a `load` spell, which its caller has decoded. It has room of its own, so that a `load` takes no memory.
#[derive(Drop)]
pub enum Loading {
    /// There is no code to load.
    Nothing,
    /// Code that may be run.
    Accepted(Code),
    /// The first fault of the bytes.
    Refused { kind: CodeKind, slot: u32 },
}

/// The refusal that decoding gave, if it gave one.
fn refusal(loading: &Loading) -> Option<Reply>
    ensures { result ≡ refusal_of (told loading.now) }
{
    match loading {
        Loading::Nothing => Some(Reply::NoMemory),
        Loading::Accepted(_) => None,
        Loading::Refused { kind, slot } => Some(Reply::BadCode {
            kind: *kind,
            slot: *slot,
        }),
    }
}

/// Takes the code out.
fn take_code(loading: &mut Loading) -> Code
    requires { is_ok (told loading.old) ≡ true }
    ensures { told loading.old ≡ Ok result.insns }
{
    let Loading::Accepted(code) = mem::replace(loading, Loading::Nothing) else {
        unreachable!()
    };
    code
}

/// A function of this name comes last. It has never run.
fn push_function(functions: &mut Vec<Function>, name: Name, code: Code)
    requires kept { AreFunctions functions.old.items }
    requires few { length functions.old.items + 1 ≤ 64 }
    requires room { 64 ≤ vec_capacity functions.old }
    requires short { slots code.insns ≤ 4096 }
    ensures functions { map function_of functions.new.items ≡ map function_of functions.old.items ++ record { name = name; code = code.insns; e = 0 } ∷ [] }
    ensures kept { AreFunctions functions.new.items }
    ensures room { 64 ≤ vec_capacity functions.new }
{
    let profile = Profile { e: 0 };
    let function = Function {
        name,
        code,
        profile,
    };
    match functions.push(function) {
        Ok(()) => {}
        Err(_) => unreachable!(),
    }
}

/// Loads what was decoded under a word, unless something refuses it. Takes no memory.
pub(crate) fn load_named(functions: &mut Vec<Function>, word: &Word, loading: &mut Loading) -> Reply
    requires kept { AreFunctions functions.old.items }
    requires room { 64 ≤ vec_capacity functions.old }
    requires short { (insns : List Insn) → told loading.old ≡ Ok insns → slots insns ≤ 4096 }
    ensures reply { result ≡ load_reply (loaded (map function_of functions.old.items) word.now (told loading.old)) }
    ensures functions { map function_of functions.new.items ≡ load_functions (map function_of functions.old.items) (loaded (map function_of functions.old.items) word.now (told loading.old)) }
    ensures kept { AreFunctions functions.new.items }
    ensures room { 64 ≤ vec_capacity functions.new }
{
    let Some(name) = Name::of(word.as_slice()) else {
        return Reply::BadName;
    };
    if let Some(reply) = refusal(loading) {
        return reply;
    }
    if function_named(functions, word).is_some() {
        return Reply::Exists;
    }
    if functions.len() >= MOST_FUNCTIONS {
        return Reply::FnFull;
    }
    let code = take_code(loading);
    push_function(functions, name, code);
    Reply::Done
}

/// Where the function of a name stands.
fn place_of(functions: &[Function], name: &[u8]) -> Option<usize>
    ensures { result ≡ position (λ f. bytes_eq f.name name.now) functions.now }
{
    functions
        .iter()
        .position(|function| function.name.as_slice() == name)
}

/// Takes a function away.
pub(crate) fn unload_named(functions: &mut Vec<Function>, word: &Word)
    requires kept { AreFunctions functions.old.items }
    ensures functions { map function_of functions.new.items ≡ without (has_name word.now) (map function_of functions.old.items) }
    ensures kept { AreFunctions functions.new.items }
    ensures room { vec_capacity functions.new ≡ vec_capacity functions.old }
{
    if let Some(i) = place_of(functions, word.as_slice()) {
        let _ = functions.remove(i);
    }
}
