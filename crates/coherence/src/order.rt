ghost use Rattle.std.specs.Prelude.{◌≡◌, ◌<◌, length};
ghost use Rattle.index_lists.specs.Words.{without, last};
ghost use Rattle.index_lists.specs.Lists.{list_at, with_list};

use index_lists::Links;

/// The one list: the unclean blocks with a copy, in the order in which they became so.
pub(crate) const UNCLEAN: u32 = 0;

/// Moves the block to the end of the list, or puts it there.
pub(crate) fn put_last(links: &mut Links, block: u32)
    requires list { 0 < length links.old.lists }
    requires block { block < links.old.nodes }
    ensures { links.new ≡ with_list links.old 0 (last block (list_at links.old 0)) }
{
    if links.contains(UNCLEAN, block) {
        links.move_to_back(UNCLEAN, block);
    } else {
        links.push_back(UNCLEAN, block);
    }
}

/// Takes the block out of the list, if it is there.
pub(crate) fn take_out(links: &mut Links, block: u32)
    requires list { 0 < length links.old.lists }
    requires block { block < links.old.nodes }
    ensures { links.new ≡ with_list links.old 0 (without block (list_at links.old 0)) }
{
    if links.contains(UNCLEAN, block) {
        links.remove(UNCLEAN, block);
    }
}
