//! The loaded functions.
ghost use Rattle.std.specs.Prelude.{◌≡◌, IfSome, Some, None};
ghost use Rattle.plain_files.specs.Plain.{is_function};
ghost use Rattle.std.specs.List.{position};

use name_table::Name;
use sbpf_load::Verified;
use std::marker::Model;

/// A function: accepted code under a name.
#[derive(Drop)]
pub struct Loaded {
    pub name: Name,
    pub code: Verified,
}

impl Model for Loaded {
    ghost use Rattle.plain_files.specs.Plain.{Function};

    ghost Value = { Function };

    ghost view = { λ f. record { name = f.name; code = f.code } };
}

// The index of the function of a name.
pub fn function_place(functions: &[Loaded], name: &[u8]) -> Option<usize>
    ensures { result ≡ position (is_function name.now) functions.now }
{
    functions
        .iter()
        .position(|function| function.has_name(name))
}

impl Loaded {
    pub fn has_name(&self, name: &[u8]) -> bool
        ensures { result ≡ is_function name.now self.now }
    {
        self.name.as_slice() == name
    }
}
