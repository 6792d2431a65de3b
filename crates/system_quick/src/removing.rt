//! A file goes, with its blocks.
ghost use Rattle.std.specs.Prelude.{◌≡◌, ◌≤◌, ◌-◌, ◌^◌, IsSome};
ghost use Rattle.page_base.specs.Bytes.{Pages};
ghost use Rattle.name_table.specs.Files.{file_of};
ghost use Rattle.system_blocks.specs.Spans.{let_go, CanLetGo, unmarked, IsMarked, renewed_by, AlongBoth};
ghost use Rattle.system_quick.specs.Tables.{removed_from};

use coherence::Pair;
use image_format::Meta;
use system_blocks::resize;

/// How many pages so many bytes have.
fn pages_for(len: u32) -> u32
    requires { len ≤ 2 ^ 28 }
    ensures value { result ≡ Pages len }
    ensures most { result ≤ 65536 }
{
    (len + 4095) / 4096
}

/// The tables and the caches lose a file of this length.
pub(crate) fn remove_file(pair: &mut Pair, meta: &mut Meta, id: u32, len: u32)
    requires there { IsSome (file_of id meta.old.names.files) }
    requires short { len ≤ 2 ^ 28 }
    requires pair { AlongBoth meta.old.extents id (Pages len) 0 let_go CanLetGo pair.old }
    requires written { AlongBoth meta.old.extents id (Pages len) 0 unmarked IsMarked meta.old.written }
    ensures pair { pair.new ≡ renewed_by meta.old.extents id (Pages len) 0 let_go pair.old }
    ensures meta { meta.new ≡ removed_from id (Pages len) meta.old }
{
    resize(pair, meta, id, pages_for(len), 0);
    meta.names.remove(id);
}
