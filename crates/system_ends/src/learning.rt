//! What a function learns from a run.
ghost use Rattle.std.specs.Prelude.{◌≡◌, ◌<◌, ◌≤◌, ◌^◌, List, length, ℕ, Some, None, map, vec_capacity, if◌then◌else◌};
ghost use Rattle.std.specs.List.{All};
ghost use Rattle.core_state.specs.Sides.{learnt};
ghost use Rattle.system_state.specs.Cores.{function_of, lanes_of};
ghost use Rattle.system_state.specs.Kept.{AreFunctions};
ghost use Rattle.system_ends.specs.Landed.{taught};

use dispatcher::learn;
use name_table::Name;
use system_state::{Claim, Function, Lane};

/// The name of the function that ran for a call: none where the lane has a mark.
pub fn ran_for(lanes: &[Lane], lane: u32, claim: &Claim) -> Option<Name>
    requires { lane < length lanes.now }
    ensures { result ≡ (if (lanes_of lanes.now lane).mark then None else claim.now.function) }
{
    if lanes[lane as usize].mark {
        None
    } else {
        claim.function
    }
}

/// A function learns from a run over so many pages, if it has the name.
fn teach(function: &mut Function, name: &Name, used: u64, pages: u32)
    requires fuel { used ≤ 2 ^ 32 }
    requires pages { pages ≤ 65 }
    requires priced { function.old.profile.e ≤ 2 ^ 32 }
    ensures value { function.new ≡ taught name.now used pages function.old }
    ensures priced { function.new.profile.e ≤ 2 ^ 32 }
{
    if name.as_slice() == function.name.as_slice() {
        learn(&mut function.profile, used, pages);
    }
}

/// The functions of a name, of which there is one at most, learn from a run over so many pages.
fn teach_named(functions: &mut Vec<Function>, name: &Name, used: u64, pages: u32)
    requires fuel { used ≤ 2 ^ 32 }
    requires pages { pages ≤ 65 }
    requires kept { AreFunctions functions.old.items }
    ensures learnt { map function_of functions.new.items ≡ map (learnt (Some name.now) used pages) (map function_of functions.old.items) }
    ensures kept { AreFunctions functions.new.items }
    ensures room { vec_capacity functions.new ≡ vec_capacity functions.old }
{
    for i in 0..functions.len() {
        teach(&mut functions[i], name, used, pages);
    }
}

/// The function of a name learns from a run over so many pages. Without a name none does.
pub fn learn_run(functions: &mut Vec<Function>, ran: Option<Name>, used: u64, pages: u32)
    requires fuel { (name : List ℕ) → ran ≡ Some name → used ≤ 2 ^ 32 }
    requires pages { pages ≤ 65 }
    requires kept { AreFunctions functions.old.items }
    ensures learnt { map function_of functions.new.items ≡ map (learnt ran used pages) (map function_of functions.old.items) }
    ensures kept { AreFunctions functions.new.items }
    ensures room { vec_capacity functions.new ≡ vec_capacity functions.old }
{
    let name = match ran {
        None => return,
        Some(name) => name,
    };
    teach_named(functions, &name, used, pages);
}
