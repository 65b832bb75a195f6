//! Output files. An output has a temporary name next to its final one until all outputs of the call are on disk. So a run that is
//! refused, interrupted or killed leaves the file that has the final name. An output that replaces a file keeps that file's
//! permissions. A pipe or a device is written as it is.
ghost use Rattle.std.specs.Prelude.{◌≡◌, IfErr};
ghost use Rattle.faults.specs.Refused.{write_failed};
ghost use Rattle.commands.specs.Faults.{IsUnmade};

use faults::Fault;
use std::fs::{File, Metadata, OpenOptions, Permissions};
use std::io::Write;
use std::os::unix::fs::{MetadataExt, OpenOptionsExt, PermissionsExt, fchown};
use std::path::PathBuf;
use std::{fs, io};

/// How many names are tried for a file beside its place.
const MOST_NAMES: u32 = 1000;

/// Permissions of a file that replaces none, before the umask.
const NEW_FILE: u32 = 0o666;

/// Permissions of the owner alone.
const OWNER: u32 = 0o700;

/// Permissions of owner, group and others.
const ALL: u32 = 0o777;

/// The place that a file takes when it is whole, and where it stands until then.
#[derive(Drop)]
struct Place {
    path: PathBuf,
    partial: String,
}

/// A file that is being written.
#[derive(Drop)]
pub struct Output {
    pub file: File,
    place: Option<Place>,
}

/// Returns whether both are of one file, under any names.
fn is_same(one: &Metadata, other: &Metadata) -> bool {
    one.dev() == other.dev() && one.ino() == other.ino()
}

/// Returns whether the file is one of these. One whose metadata cannot be read counts as the same.
fn is_among(found: &Metadata, files: &[Option<&File>]) -> bool {
    files.iter().flatten().any(|file| match file.metadata() {
        Ok(other) => is_same(found, &other),
        Err(_) => true,
    })
}

/// Whether the file is the one that standard output goes to.
fn is_standard_output(rt: &HostRuntime, found: &Metadata) -> bool {
    match fs::metadata(rt, "/dev/stdout") {
        Ok(other) => is_same(found, &other),
        Err(_) => false,
    }
}

/// Whether the file of this name is one of these.
fn is_taken(rt: &HostRuntime, path: &str, files: &[Option<&File>]) -> bool {
    match fs::metadata(rt, path) {
        Ok(found) => is_among(&found, files),
        Err(_) => false,
    }
}

/// The permissions for a file of another group than the replaced file's: its group gets no more than others had.
fn for_another_group(mode: u32) -> u32 {
    mode & !0o070 | mode & mode << 3 & 0o070
}

/// Copies owner, group and permissions from the replaced file. If the group cannot be kept, the new group gets no more than
/// others had.
fn take_permissions(file: &File, replaced: &Metadata) {
    let _ = fchown(file, Some(replaced.uid()), Some(replaced.gid()));
    let mode = replaced.mode() & ALL;
    let is_same_group = match file.metadata() {
        Ok(found) => found.gid() == replaced.gid(),
        Err(_) => false,
    };
    let mode = if is_same_group {
        mode
    } else {
        for_another_group(mode)
    };
    let _ = file.set_permissions(Permissions::from_mode(mode));
}

/// Creates a file under a name that does not exist yet, with the permissions of the file that it replaces. Until these are set,
/// only the owner has access.
fn create_new(rt: &HostRuntime, partial: &str, replaced: Option<&Metadata>) -> io::Result<File> {
    let mode = replaced.map_or(NEW_FILE, |found| found.mode() & OWNER);
    let file = OpenOptions::new()
        .write(true)
        .create_new(true)
        .mode(mode)
        .open(rt, partial)?;
    if let Some(found) = replaced {
        take_permissions(&file, found);
    }
    Ok(file)
}

/// A file beside this path, under a name that nothing has yet: the path with a number and `.part` behind it. Refused where
/// one of these files stands there, which then waits for the same place.
fn create_beside(
    rt: &HostRuntime,
    path: PathBuf,
    replaced: Option<&Metadata>,
    taken: &[Option<&File>],
) -> Result<Output, Fault>
    ensures refused { IfErr result IsUnmade }
{
    for number in 0..MOST_NAMES {
        let partial = format!(in rt.alloc(); "{}.{number}.part", path.display())?;
        match create_new(rt, partial.as_str(), replaced) {
            Ok(file) => {
                return Ok(Output {
                    file,
                    place: Some(Place { path, partial }),
                });
            }
            Err(error)
                if error.kind() == io::ErrorKind::AlreadyExists
                    && !is_taken(rt, partial.as_str(), taken) => {}
            Err(_) => return Err(Fault::write_failed()),
        }
    }
    Err(Fault::write_failed())
}

impl Output {
    /// Makes a file, or what it is written to before it takes its name. Errors: it cannot be made or may not be written, it is one
    /// of the inputs and outputs that are taken or the file of standard output, or lack of memory.
    pub fn create(rt: &HostRuntime, path: &str, taken: &[Option<&File>]) -> Result<Output, Fault>
        ensures refused { IfErr result IsUnmade }
    {
        match fs::metadata(rt, path) {
            Ok(found) if !found.is_file() => match File::create(rt, path) {
                Ok(file) => Ok(Output { file, place: None }),
                Err(_) => Err(Fault::write_failed()),
            },
            Ok(found)
                if found.permissions().readonly()
                    || is_among(&found, taken)
                    || is_standard_output(rt, &found) => { Err(Fault::write_failed()) }
            Ok(found) => match fs::canonicalize(rt, path) {
                Ok(path) => create_beside(rt, path, Some(&found), taken),
                Err(_) => Err(Fault::write_failed()),
            },
            Err(_) if path.is_empty() => Err(Fault::write_failed()),
            Err(_) => create_beside(rt, PathBuf::from_str(rt.alloc(), path)?, None, taken),
        }
    }

    /// Flushes the file to disk. Does nothing for a pipe or a device.
    pub fn sync(&self) -> Result<(), Fault>
        ensures refused { IfErr result (λ e. e ≡ write_failed) }
    {
        if self.place.is_some() && self.file.sync_all().is_err() {
            return Err(Fault::write_failed());
        }
        Ok(())
    }

    /// Renames the file to its final name. If that fails, removes it.
    pub fn take_name(self, rt: &HostRuntime) -> Result<(), Fault>
        ensures refused { IfErr result (λ e. e ≡ write_failed) }
    {
        let Output { file: _, place } = self;
        let Some(place) = place else {
            return Ok(());
        };
        if fs::rename(rt, place.partial.as_str(), place.path.as_path()).is_ok() {
            return Ok(());
        }
        let _ = fs::remove_file(rt, place.partial.as_str());
        Err(Fault::write_failed())
    }

    /// Removes the file. The file that has the final name stays.
    pub fn discard(self, rt: &HostRuntime) {
        let Output { file: _, place } = self;
        if let Some(place) = place {
            let _ = fs::remove_file(rt, place.partial.as_str());
        }
    }
}

/// What is written to it goes to its file.
impl Write for Output {
    fn write(&mut self, buf: &[u8]) -> io::Result<usize> {
        self.file.write(buf)
    }

    fn flush(&mut self) -> io::Result<()> {
        self.file.flush()
    }
}
