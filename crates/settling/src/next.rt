//! What the last sync writes next.
ghost use Rattle.std.specs.Prelude.{◌≡◌, []};
ghost use Rattle.system_state.specs.Cores.{core_of};
ghost use Rattle.system_state.specs.Stands.{IsStanding};
ghost use Rattle.core_closing.specs.Kept.{MaySettle};
ghost use Rattle.settling.specs.Next.{NextDid, busy_die};

use core_state::Actor;
use flash_die::Die;
use page_base::Page;
use system_dies::try_flush_out;
use system_metas::try_meta_out;
use system_state::{CallJob, Errand, NotYet, State};

/// What is next of the last sync.
#[derive(Drop)]
pub enum Next<D> {
    /// A die went out to flush a block.
    Block { errand: Errand<D> },
    /// A die went out to write a page of the meta data.
    Meta { errand: Errand<D> },
    /// The die of the next write is out.
    Busy { die: u32 },
    /// All is stored.
    Stored,
}

/// The die that is out, if that is why.
fn busy_die(y: NotYet) -> Option<u32>
    ensures { result ≡ busy_die y }
{
    match y {
        NotYet::DieBusy { die } => Some(die),
        _ => None,
    }
}

/// The die of the next page of the meta data goes out, with its bytes. No block is unclean.
fn try_page<D: Die, J: CallJob>(state: &mut State<D, J>, into: &mut Page) -> Next<D>
    requires standing { IsStanding D.seen J.suits state.old }
    requires may { MaySettle (core_of D.seen state.old) }
    requires clean { (core_of D.seen state.old).unclean ≡ [] }
    ensures { NextDid D.seen J.suits state.old into.new result state.new }
{
    let number = state.closer;
    if number >= state.sizes.meta {
        return Next::Stored;
    }
    match try_meta_out(state, Actor::Closer, number, into) {
        Ok(errand) => Next::Meta { errand },
        Err(_) => Next::Busy {
            die: number % state.sizes.dies,
        },
    }
}

/// The die of the next write of the last sync goes out, with what it is to write: of the first unclean block whose die is at home, or, where
/// no block is unclean, of the next page of the meta data.
pub fn try_next<D: Die, J: CallJob>(state: &mut State<D, J>, into: &mut Page) -> Next<D>
    requires standing { IsStanding D.seen J.suits state.old }
    requires may { MaySettle (core_of D.seen state.old) }
    ensures { NextDid D.seen J.suits state.old into.new result state.new }
{
    let busy = match try_flush_out(state, Actor::Closer, into) {
        Ok(errand) => return Next::Block { errand },
        Err(y) => busy_die(y),
    };
    match busy {
        Some(die) => Next::Busy { die },
        None => try_page(state, into),
    }
}
