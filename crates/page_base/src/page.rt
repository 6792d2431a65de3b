ghost use Rattle.std.specs.Prelude.{◌≡◌, ◌+◌, ◌<◌, ◌≤◌, length, take, drop, slice_index, IfOk};
ghost use Rattle.page_base.specs.Bytes.{zero_page, patched, cleared_from};

use std::alloc::{AllocError, Global};
use std::marker::Model;

/// Want of memory, where it is the only answer but success.
pub type NoMemory = AllocError;

/// The one fault of a die and of raw flash: the device failed.
#[derive(Clone, Copy, Debug, PartialEq, Eq, Drop)]
pub struct DieFault;

/// A page: always 4,096 bytes, and seen as their list.
#[derive(Drop)]
pub struct Page {
    bytes: Vec<u8>,
}

impl Model for Page {
    ghost use Rattle.std.specs.Prelude.{◌≡◌, List, ℕ, length};

    ghost Value = { List ℕ };

    ghost view = { λ p. p.bytes.items };

    ghost invariant = { λ p. length p.bytes.items ≡ 4096 };
}

impl Page {
    /// A page of zeros, or `NoMemory`.
    #[tactic(auto, unfolding(crate::specs::Bytes::zero_page))]
    pub fn zero(alloc: Global) -> Result<Page, NoMemory>
        ensures { IfOk result (λ p. p ≡ zero_page) }
    {
        let bytes = vec![in alloc; 0; 4096]?;
        Ok(Page { bytes })
    }

    /// Takes over the bytes of another page.
    pub fn copy_from(&mut self, other: &Page)
        ensures value { self.new ≡ other.now }
        ensures whole { length self.new ≡ 4096 }
    {
        self.bytes.copy_from_slice(&other.bytes);
    }

    /// Writes bytes at a place of the page, where they must fit.
    pub fn patch(&mut self, at: usize, bytes: &[u8])
        requires { at + length bytes.now ≤ 4096 }
        ensures value { self.new ≡ patched self.old at bytes.now }
        ensures whole { length self.new ≡ 4096 }
    {
        self.bytes[at..at + bytes.len()].copy_from_slice(bytes);
    }

    /// Fills `into` with the bytes from a place of the page on, which must be so many.
    pub fn read(&self, at: usize, into: &mut [u8])
        requires { at + length into.old ≤ 4096 }
        ensures value { into.new ≡ take (length into.old) (drop at self.now) }
        ensures whole { length self.now ≡ 4096 }
    {
        let end = at + into.len();
        into.copy_from_slice(&self.bytes[at..end]);
    }

    /// The byte at a place below 4,096.
    #[inline]
    pub fn byte(&self, at: usize) -> u8
        requires { at < 4096 }
        ensures value { result ≡ slice_index self.now at }
        ensures whole { length self.now ≡ 4096 }
    {
        self.bytes[at]
    }

    /// Fills the page with zeros from a place on, which is at most 4,096.
    pub fn clear_from(&mut self, at: usize)
        requires { at ≤ 4096 }
        ensures value { self.new ≡ cleared_from self.old at }
        ensures whole { length self.new ≡ 4096 }
    {
        self.bytes[at..].fill(0);
    }
}

#[cfg(test)]
mod tests {
    use super::*;

    #[test]
    fn a_page_keeps_what_is_put_into_it(rt: HostRuntime) -> Result<(), NoMemory> {
        let mut page = Page::zero(rt.alloc())?;
        page.patch(4093, &[7, 8, 9]);
        let mut copied = Page::zero(rt.alloc())?;
        copied.copy_from(&page);
        copied.clear_from(4095);
        let mut ends = [1; 4];
        page.read(4092, &mut ends);
        assert_eq!(rt; ends, [0, 7, 8, 9]);
        copied.read(4092, &mut ends);
        assert_eq!(rt; ends, [0, 7, 8, 0]);
        assert_eq!(rt; copied.byte(4094), 8);
        Ok(())
    }
}
