//! Truth values in a row.
ghost use Rattle.std.specs.Prelude.{◌≡◌, ◌<◌, ◌+◌, ◌++◌, ◌∷◌, length, take, drop, replicate, false, IfOk, Some, slice_get, slice_set, slice_index_or};

use std::alloc::{AllocError, Global};
use std::marker::Model;

/// Truth values, seen as a list.
#[derive(Drop)]
pub struct Bits {
    values: Vec<bool>,
}

impl Model for Bits {
    ghost use Rattle.std.specs.Prelude.{List, Bool};

    ghost Value = { List Bool };

    ghost view = { λ b. b.values.items };
}

impl Bits {
    /// So many values, all false.
    pub fn new(alloc: Global, count: u32) -> Result<Bits, AllocError>
        ensures { IfOk result (λ b. b ≡ replicate count false) }
    {
        let values = vec![in alloc; false; count as usize]?;
        Ok(Bits { values })
    }

    /// The value of a number below the length.
    pub fn get(&self, i: u32) -> bool
        requires { i < length self.now }
        ensures value { result ≡ slice_index_or self.now i false }
        ensures there { slice_get self.now i ≡ Some result }
    {
        self.values[i as usize]
    }

    /// Sets the value of a number below the length.
    pub fn set(&mut self, i: u32, value: bool)
        requires { i < length self.old }
        ensures { self.new ≡ slice_set self.old i value }
    {
        self.values[i as usize] = value;
    }
}
