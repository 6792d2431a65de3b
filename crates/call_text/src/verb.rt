//! The first words of calls.
ghost use Rattle.std.specs.Prelude.{◌≡◌};
ghost use Rattle.call_text.specs.Calls.{verb_of};

/// The first word of a call.
#[derive(Clone, Copy, Debug, PartialEq, Eq)]
pub enum Verb {
    Create,
    Open,
    Stat,
    Remove,
    Read,
    Write,
    Append,
    Trunc,
    Seal,
    Load,
    Unload,
    Readl,
    Writel,
    Sync,
}

// The call that a word begins.
#[tactic(auto, unfolding(crate::specs::Calls::verb_of))]
pub fn verb_of(word: &[u8]) -> Option<Verb>
    ensures { result ≡ verb_of word.now }
{
    if word == b"create".as_slice() {
        return Some(Verb::Create);
    }
    if word == b"open".as_slice() {
        return Some(Verb::Open);
    }
    if word == b"stat".as_slice() {
        return Some(Verb::Stat);
    }
    if word == b"remove".as_slice() {
        return Some(Verb::Remove);
    }
    if word == b"read".as_slice() {
        return Some(Verb::Read);
    }
    if word == b"write".as_slice() {
        return Some(Verb::Write);
    }
    if word == b"append".as_slice() {
        return Some(Verb::Append);
    }
    if word == b"trunc".as_slice() {
        return Some(Verb::Trunc);
    }
    if word == b"seal".as_slice() {
        return Some(Verb::Seal);
    }
    if word == b"load".as_slice() {
        return Some(Verb::Load);
    }
    if word == b"unload".as_slice() {
        return Some(Verb::Unload);
    }
    if word == b"readl".as_slice() {
        return Some(Verb::Readl);
    }
    if word == b"writel".as_slice() {
        return Some(Verb::Writel);
    }
    if word == b"sync".as_slice() {
        return Some(Verb::Sync);
    }
    None
}
