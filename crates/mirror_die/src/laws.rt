//! What holds of every mirror.
ghost use Rattle.mirror_die.specs.Mirror.{IsMirror, FreshIsEqual};
ghost use Rattle.mirror_die.specs.Views.{view_of};

use crate::MirrorDie;
use flash_die::Die;

/// Each page is fresh on one copy or on both, and its bytes are those of each fresh copy.
pub fn fresh_copies_have_the_page<A: Die, B: Die>(mirror: &MirrorDie<A, B>)
    ensures equal { FreshIsEqual (view_of mirror.now) }
    ensures is { IsMirror (view_of mirror.now) }
{
    let _ = mirror;
}
