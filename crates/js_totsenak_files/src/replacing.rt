//! Files that are written as a whole, or not at all.

use std::fs::{self, File, Permissions};
use std::io::{self, ErrorKind, Write};

/// The most files beside a file whose names are tried.
const MOST_TRIES: u32 = 100;

/// A file beside another, with its name.
#[derive(Drop)]
struct Beside {
    file: File,
    name: String,
}

/// Makes a file beside the one of a name, where none is yet.
fn make_beside(rt: &HostRuntime, name: &str) -> io::Result<Beside> {
    for number in 0..MOST_TRIES {
        let beside = format!(in rt.alloc(); "{name}.totsenak-{number}")?;
        match File::create_new(rt, beside.as_str()) {
            Ok(file) => return Ok(Beside { file, name: beside }),
            Err(error) if error.kind() == ErrorKind::AlreadyExists => {}
            Err(error) => return Err(error),
        }
    }
    Err(io::Error::from(ErrorKind::AlreadyExists))
}

/// Writes a text to a new file, which gets these permissions, if any.
fn fill(file: &mut File, text: &str, permissions: Option<Permissions>) -> io::Result<()> {
    file.write_all(text.as_bytes())?;
    if let Some(permissions) = permissions {
        file.set_permissions(permissions)?;
    }
    file.sync_all()
}

/// Fills a file beside another and puts it in the place of that one.
fn put_in_place(
    rt: &HostRuntime,
    beside: &mut Beside,
    name: &str,
    text: &str,
    permissions: Option<Permissions>,
) -> io::Result<()> {
    fill(&mut beside.file, text, permissions)?;
    fs::rename(rt, beside.name.as_str(), name)
}

/// Writes a text to the file of a name, by a file beside it that is put in its place at the end. Where that fails, the
/// file is as it was.
fn replace(
    rt: &HostRuntime,
    name: &str,
    text: &str,
    permissions: Option<Permissions>,
) -> io::Result<()> {
    let mut beside = make_beside(rt, name)?;
    match put_in_place(rt, &mut beside, name, text, permissions) {
        Ok(()) => Ok(()),
        Err(error) => {
            // Nothing more can be done where this fails too.
            let _ = fs::remove_file(rt, beside.name.as_str());
            Err(error)
        }
    }
}

/// Writes a text to a file. One that is there already is replaced as a whole, and keeps its permissions; where the name
/// is that of a link, the file that it leads to is replaced. What is no file, as a terminal or a pipe, is written to.
pub(crate) fn write_file(rt: &HostRuntime, name: &str, text: &str) -> io::Result<()> {
    match fs::metadata(rt, name) {
        Ok(metadata) if metadata.is_file() => {
            let target = fs::canonicalize(rt, name)?;
            replace(rt, target.as_os_str(), text, Some(metadata.permissions()))
        }
        Ok(_) => fs::write(rt, name, text),
        Err(error) if error.kind() == ErrorKind::NotFound => replace(rt, name, text, None),
        Err(error) => Err(error),
    }
}
