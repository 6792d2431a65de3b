//! The laws. Each is the contract of a function that takes and gives nothing.
ghost use Rattle.std.specs.Prelude.{◌≡◌, ◌++◌, ℕ, List, length, Ok};
ghost use Rattle.page_base.specs.Drive.{IsDrive, total_pages};
ghost use Rattle.name_table.specs.Files.{IsTable};
ghost use Rattle.extent_map.specs.Places.{IsSound};
ghost use Rattle.image_format.specs.declared.meta.Meta.{Meta};
ghost use Rattle.image_format.specs.Image.{read_image, mounts_to};
ghost use Rattle.image_format.specs.Encoding.{image_bytes};
ghost use Rattle.image_format.specs.Tables.{Mounts, IsOneSize};
ghost use Rattle.image_format.specs.Whole.{IsWhole, IsValid, stands_for};
ghost use Rattle.image_laws.specs.Pages.{bytes_of, encoded, data_blocks};

/// The meta data and pages that an image of either version mounts to are whole: each file has blocks for exactly its
/// pages, no other block is written, and no file goes on behind its length. There are as many pages as a drive of that
/// geometry has, and what they stand for is what the image says.
pub fn mounted_is_whole()
    ensures whole { (bytes : List ℕ) (m : Meta) (all : List (List ℕ)) → Mounts bytes m all (read_image bytes) → IsWhole m (data_blocks m all) }
    ensures count { (bytes : List ℕ) (m : Meta) (all : List (List ℕ)) → Mounts bytes m all (read_image bytes) → length all ≡ total_pages m.geometry.blocks }
    ensures valid { (bytes : List ℕ) (m : Meta) (all : List (List ℕ)) → IsDrive m.geometry.blocks m.geometry.dies → IsTable m.names → IsSound m.extents →
        Mounts bytes m all (read_image bytes) → IsValid m (data_blocks m all) }
    ensures stands { (bytes : List ℕ) (m : Meta) (all : List (List ℕ)) → IsSound m.extents →
        Mounts bytes m all (read_image bytes) → mounts_to bytes ≡ Ok (stands_for m (data_blocks m all)) }
{}

/// The pages that an image of either version mounts to, joined, mount to the same files and next id, and to the same
/// meta data and pages.
pub fn mounted_again()
    ensures same { (bytes : List ℕ) (m : Meta) (all : List (List ℕ)) → IsDrive m.geometry.blocks m.geometry.dies → IsTable m.names → IsSound m.extents →
        Mounts bytes m all (read_image bytes) → mounts_to (bytes_of all) ≡ mounts_to bytes }
    ensures again { (bytes : List ℕ) (m : Meta) (all : List (List ℕ)) → IsDrive m.geometry.blocks m.geometry.dies → IsTable m.names → IsSound m.extents →
        Mounts bytes m all (read_image bytes) → Mounts (bytes_of all) m all (read_image (bytes_of all)) }
{}

/// The pages of meta data and then the data blocks, joined, are the image.
pub fn pages_are_the_image()
    ensures { (m : Meta) (blocks : List (List ℕ)) → IsTable m.names → IsSound m.extents → IsOneSize m →
        bytes_of (encoded m ++ blocks) ≡ image_bytes m blocks }
{}
