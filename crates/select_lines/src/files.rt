//! The files of a machine by their names.
ghost use Rattle.std.specs.Prelude.{◌≡◌, ◌≤◌, length, option_copied};
ghost use Rattle.plain_files.specs.Plain.{is_file, file_of};

use plain_files::PlainFile;
use plain_run::Plain;

/// The most files of a machine over a drive.
const MOST_FILES: u32 = 4096;

fn has_name(file: &PlainFile, name: &[u8]) -> bool
    ensures { result ≡ is_file name.now file.now }
{
    file.name.as_slice() == name
}

/// The file of a name; none exactly where no file has it.
pub fn file_named<'a>(plain: &'a Plain, name: &[u8]) -> Option<&'a PlainFile>
    requires { length plain.now.files ≤ 4096 }
    ensures { option_copied result ≡ file_of name.now plain.now.files }
{
    for i in 0..MOST_FILES {
        let Some(file) = plain.file_at(i) else {
            return None;
        };
        if has_name(file, name) {
            return Some(file);
        }
    }
    None
}
