ghost use Rattle.std.specs.Prelude.{◌≡◌, ◌<◌, length, None, is_some, true};
ghost use Rattle.page_base.specs.Bytes.{zero_page};
ghost use Rattle.page_cache.specs.Cached.{copy_at, with_page, without_page};
ghost use Rattle.coherence.specs.Changes.{read_by, read_from, page_or};

use page_base::Page;
use page_cache::Cache;

/// Takes the block's copy out of the cache, if there is one.
pub(crate) fn clear(cache: &mut Cache, block: u32)
    requires { block < length cache.old.copies }
    ensures value { cache.new ≡ without_page cache.old block }
    ensures room { (copy_at cache.old block ≡ None → length cache.old.order < cache.old.frames) → length cache.new.order < cache.new.frames }
{
    if cache.has(block) {
        cache.forget(block);
    }
}

/// Puts the page in here, in place of all copies of the block here and there.
pub(crate) fn replace(here: &mut Cache, there: &mut Cache, block: u32, page: &mut Page)
    requires block { block < length here.old.copies }
    requires there { block < length there.old.copies }
    requires room { copy_at here.old block ≡ None → length here.old.order < here.old.frames }
    ensures here { here.new ≡ with_page here.old block page.old }
    ensures there { there.new ≡ without_page there.old block }
{
    clear(there, block);
    clear(here, block);
    here.put(block, page);
}

/// Takes the block's copies out of both caches. The caller gets the first one's, else the second one's, else zeros.
pub(crate) fn take_from(first: &mut Cache, second: &mut Cache, block: u32, page: &mut Page)
    requires first { block < length first.old.copies }
    requires second { block < length second.old.copies }
    ensures first { first.new ≡ without_page first.old block }
    ensures second { second.new ≡ without_page second.old block }
    ensures page { page.new ≡ page_or (copy_at first.old block) (page_or (copy_at second.old block) zero_page) }
{
    if first.has(block) {
        first.take(block, page);
        clear(second, block);
    } else if second.has(block) {
        second.take(block, page);
    } else {
        page.clear_from(0);
    }
}

/// Reads the block's page: the copy here, else the copy there, which is then put in here too, else zeros.
///
/// The copy that was read is the one used last at its side, and so is a copy that is put in.
pub(crate) fn read_at(here: &mut Cache, there: &mut Cache, block: u32, into: &mut Page)
    requires here { block < length here.old.copies }
    requires there { block < length there.old.copies }
    requires room { copy_at here.old block ≡ None → is_some (copy_at there.old block) ≡ true → length here.old.order < here.old.frames }
    ensures here { here.new ≡ read_by (copy_at here.old block) (copy_at there.old block) here.old block }
    ensures there { there.new ≡ read_from (copy_at here.old block) (copy_at there.old block) there.old block }
    ensures page { into.new ≡ page_or (copy_at here.old block) (page_or (copy_at there.old block) zero_page) }
{
    if here.has(block) {
        here.touch(block);
        here.copy(block, into);
    } else if there.has(block) {
        there.touch(block);
        there.copy(block, into);
        here.put(block, into);
        here.copy(block, into);
    } else {
        into.clear_from(0);
    }
}
