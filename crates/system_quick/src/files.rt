//! The table of files: what calls that need no page find and change there.
ghost use Rattle.std.specs.Prelude.{◌≡◌, Some, false, is_none};
ghost use Rattle.name_table.specs.Files.{file_named};
ghost use Rattle.system_quick.specs.Tables.{id_reply, len_reply, made_reply, create_reply, create_table, unsealed_row};

use call_checks::file_named;
use name_table::{FileRec, Name, NameErr, Names};
use plain_files::{Reply, Word};

/// The file of a word, which is there.
pub(crate) fn file_there(names: &Names, word: &Word) -> FileRec
    requires { is_none (file_named word.now names.now.files) ≡ false }
    ensures { file_named word.now names.now.files ≡ Some result }
{
    match file_named(names, word) {
        Some(file) => file,
        None => unreachable!(),
    }
}

/// The reply to `open`.
pub(crate) fn open_named(names: &Names, word: &Word) -> Reply
    ensures { result ≡ id_reply (file_named word.now names.now.files) }
{
    match file_named(names, word) {
        Some(file) => Reply::Id(file.id),
        None => Reply::NoFile,
    }
}

/// The reply to `stat`.
pub(crate) fn stat_named(names: &Names, word: &Word) -> Reply
    ensures { result ≡ len_reply (file_named word.now names.now.files) }
{
    match file_named(names, word) {
        Some(file) => Reply::Len(u64::from(file.len)),
        None => Reply::NoFile,
    }
}

/// The reply to `create`, where the word is a name.
fn made_reply(made: Result<u32, NameErr>) -> Reply
    ensures { result ≡ made_reply made }
{
    match made {
        Ok(id) => Reply::Id(id),
        Err(NameErr::Exists { .. }) => Reply::Exists,
        Err(NameErr::Full { .. }) => Reply::Full,
    }
}

/// Makes a file under a word, unless something refuses it.
pub(crate) fn create_named(names: &mut Names, word: &Word) -> Reply
    ensures reply { result ≡ create_reply names.old word.now }
    ensures table { names.new ≡ create_table names.old word.now }
{
    let Some(name) = Name::of(word.as_slice()) else {
        return Reply::BadName;
    };
    made_reply(names.create(name))
}

/// Whether there is a file of the word, and it isn't sealed.
pub(crate) fn is_unsealed(names: &Names, word: &Word) -> bool
    ensures { result ≡ unsealed_row (file_named word.now names.now.files) }
{
    match file_named(names, word) {
        Some(file) => !file.sealed,
        None => false,
    }
}
