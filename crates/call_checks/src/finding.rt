//! The file and the function that a call's words find.
ghost use Rattle.std.specs.Prelude.{◌≡◌, option_copied, bytes_eq};
ghost use Rattle.name_table.specs.Files.{file_named};
ghost use Rattle.call_checks.specs.Checks.{row_for, function_by, lacks_function};

use name_table::{FileRec, Name, Names};
use plain_files::{Call, Word};
use system_state::Function;

/// The file of a word in the place of a name. A word that is no name finds none.
pub fn file_named(names: &Names, word: &Word) -> Option<FileRec>
    ensures { result ≡ file_named word.now names.now.files }
{
    let _files = names.len();
    let name = Name::of(word.as_slice())?;
    let id = names.find(&name)?;
    names.by_id(id)
}

/// The file that a call is about, if it is there.
pub fn file_for(names: &Names, call: &Call) -> Option<FileRec>
    ensures { result ≡ row_for names.now.files call.now }
{
    match call {
        Call::OpenFile(name)
        | Call::Stat(name)
        | Call::Remove(name)
        | Call::Seal(name)
        | Call::Read(name, _, _)
        | Call::Write(name, _, _)
        | Call::Append(name, _)
        | Call::Trunc(name, _) => file_named(names, name),
        Call::Readl { file, .. } | Call::Writel { file, .. } => file_named(names, file),
        _ => None,
    }
}

fn has_name(function: &Function, name: &[u8]) -> bool
    ensures { result ≡ bytes_eq function.now.name name.now }
{
    function.name.as_slice() == name
}

/// The function of a word in the place of a name.
pub fn function_named<'a>(functions: &'a [Function], word: &Word) -> Option<&'a Function>
    ensures { option_copied result ≡ function_by functions.now word.now }
{
    functions
        .iter()
        .find(|function| has_name(function, word.as_slice()))
}

/// Whether the call asks for a function that is not there.
pub(crate) fn lacks_function(functions: &[Function], call: &Call) -> bool
    ensures { result ≡ lacks_function functions.now call.now }
{
    match call {
        Call::Unload(name) => function_named(functions, name).is_none(),
        Call::Readl { function, .. } | Call::Writel { function, .. } => {
            function_named(functions, function).is_none()
        }
        _ => false,
    }
}
