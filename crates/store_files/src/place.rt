//! Examines a path: the file that has it, and the journal and the WAL next to this file.
//!
//! No contract states what the file system returns. Tests show that every call reports a failed
//! allocation as `AllocError` (`answer_of`), except for the `read_exact` in `place_by_head` and the
//! `exists` in `is_missing`.
ghost use Rattle.std.specs.Prelude.{◌≡◌, ◌↔◌, codes, false, IfOk, IsErr, IsErrAnd, IsTrue, Ok};
ghost use Rattle.std.specs.IoError.{error_kind};
ghost use Rattle.store_files.specs.Places.{IsFolderOf, is_uri, names_no_file, place_refused};

use std::alloc::{AllocError, AllocGlobal};
use std::fs::{self, Files, Metadata, OpenOptions};
use std::io::{self, ErrorKind, Read};
use std::os::unix::fs::MetadataExt;
use std::path::PathBuf;

/// The magic header string of a database file (SQLite's database file format, section 1.3.1).
const HEAD: &[u8] = b"SQLite format 3\0";

/// The length of the WAL after an ordinary exit. It has no commits, but a longer WAL may have some.
pub(crate) const EMPTY_LOG: u64 = 41;

/// The object at a path, as reported by the file system.
#[derive(Clone, Copy, Debug, PartialEq, Eq)]
pub enum Place {
    /// Nothing. The folder of the path exists.
    NoFile,
    /// Nothing. The folder of the path doesn't exist, or isn't a folder.
    NoFolder,
    /// A folder.
    Folder,
    /// A device, a socket, a broken link or a file with a second name (a hard link), or a path that
    /// isn't the path of a file for SQLite.
    Special,
    /// An object that the user isn't allowed to access, or a file that the user isn't allowed to
    /// read and write.
    NoRight,
    /// A file with a rollback journal next to it, which only SQLite's own library can undo.
    Journal,
    /// A file that can be read and written. `is_sqlite` is `true` if it is empty or begins like a
    /// file that SQLite wrote.
    File { is_sqlite: bool },
    /// An object that the file system couldn't examine because of some other error.
    Unclear,
}

/// Returns the object at `path`. If it is a file, the function opens it, reads its first bytes and
/// closes it.
///
/// # Errors
///
/// Returns `AllocError` if an allocation fails.
pub fn place_of<R: Files + AllocGlobal>(rt: &R, path: &str) -> Result<Place, AllocError>
    ensures memory { path.now ≡ codes ":memory:" → result ≡ Ok Place.Special }
{
    if names_no_file(path) {
        return Ok(Place::Special);
    }
    let real = real_path(rt, path)?;
    place_at(rt, real.as_str())
}

/// Returns `true` if there is a WAL next to the file at `path`, and this WAL is longer than after
/// an ordinary exit. Only a test shows that the WAL isn't changed.
///
/// # Errors
///
/// Returns `AllocError` if an allocation fails.
pub fn has_log<R: Files + AllocGlobal>(rt: &R, path: &str) -> Result<bool, AllocError>
    ensures memory { path.now ≡ codes ":memory:" → result ≡ Ok false }
{
    if names_no_file(path) {
        return Ok(false);
    }
    let log = beside(rt, path, "-wal")?;
    has_more(rt, log.as_str(), EMPTY_LOG)
}

/// Returns `true` if there is a file at `path` with more than `most` bytes. The result is `false`
/// if the file system returns an error other than out of memory.
///
/// # Errors
///
/// Returns `AllocError` if an allocation fails.
pub fn has_more<R: Files>(files: &R, path: &str, most: u64) -> Result<bool, AllocError> {
    match answer_of(fs::metadata(files, path))? {
        Ok(found) => Ok(found.len() > most),
        Err(_) => Ok(false),
    }
}

/// Returns `true` if `path` is the path of a file, and this file doesn't exist. The result is
/// `false` if the file system returns an error other than out of memory.
///
/// # Errors
///
/// Returns `AllocError` if an allocation fails.
pub(crate) fn is_missing<R: Files>(files: &R, path: &str) -> Result<bool, AllocError>
    ensures memory { path.now ≡ codes ":memory:" → result ≡ Ok false }
{
    if names_no_file(path) {
        return Ok(false);
    }
    match answer_of(fs::exists(files, path))? {
        Ok(is_there) => Ok(!is_there),
        Err(_) => Ok(false),
    }
}

// Returns `true` if SQLite doesn't take `path` for the path of a file: `:memory:` is a database in
// memory, and `file:` begins a URI.
pub(crate) fn names_no_file(path: &str) -> bool
    ensures memory { path.now ≡ codes ":memory:" → IsTrue result }
    ensures exact { result ≡ names_no_file path.now }
{
    path == ":memory:" || is_uri(path)
}

fn is_uri(path: &str) -> bool
    ensures { result ≡ is_uri path.now }
{
    path.starts_with("file:")
}

// Returns the answer of the file system, or `AllocError` if it is out of memory.
pub(crate) fn answer_of<T: Drop>(answer: io::Result<T>) -> Result<io::Result<T>, AllocError>
    ensures same { IfOk result (λ same. same ≡ answer) }
    ensures refused { IsErr result ↔ IsErrAnd answer (λ e. error_kind e ≡ ErrorKind.OutOfMemory) }
{
    match answer {
        Err(error) if error.kind() == ErrorKind::OutOfMemory => Err(AllocError),
        answer => Ok(answer),
    }
}

// Returns `path` with all links resolved, or unchanged if they can't be resolved.
fn real_path<R: Files + AllocGlobal>(rt: &R, path: &str) -> Result<PathBuf, AllocError> {
    match answer_of(fs::canonicalize(rt, path))? {
        Ok(real) => Ok(real),
        Err(_) => PathBuf::from_str(rt.alloc(), path),
    }
}

// Returns the path of a file next to the one at `path`: its name with `end` appended.
fn beside<R: Files + AllocGlobal>(rt: &R, path: &str, end: &str) -> Result<String, AllocError> {
    let real = real_path(rt, path)?;
    format!(in rt.alloc(); "{}{end}", real.as_str())
}

fn place_at<R: Files + AllocGlobal>(rt: &R, path: &str) -> Result<Place, AllocError> {
    match answer_of(fs::metadata(rt, path))? {
        Ok(found) => place_found(rt, path, &found),
        Err(error) => match error.kind() {
            ErrorKind::NotFound | ErrorKind::NotADirectory => place_missing(rt, path),
            kind => Ok(place_refused(kind)),
        },
    }
}

// Returns the place of an existing object.
fn place_found<R: Files + AllocGlobal>(
    rt: &R,
    path: &str,
    found: &Metadata,
) -> Result<Place, AllocError> {
    if found.is_dir() {
        Ok(Place::Folder)
    } else if !found.is_file() || found.nlink() > 1 {
        Ok(Place::Special)
    } else if has_journal(rt, path)? {
        Ok(Place::Journal)
    } else {
        place_of_file(rt, path, found.len() == 0)
    }
}

// Returns `true` if there is a journal next to the file at `path`, and this journal isn't empty.
fn has_journal<R: Files + AllocGlobal>(rt: &R, path: &str) -> Result<bool, AllocError> {
    let journal = beside(rt, path, "-journal")?;
    has_more(rt, journal.as_str(), 0)
}

// Returns the place of an ordinary file.
fn place_of_file<R: Files>(files: &R, path: &str, is_empty: bool) -> Result<Place, AllocError> {
    match answer_of(OpenOptions::new().read(true).write(true).open(files, path))? {
        Ok(_) if is_empty => Ok(Place::File { is_sqlite: true }),
        Ok(mut file) => place_by_head(&mut file),
        Err(error) => Ok(place_refused(error.kind())),
    }
}

// Returns the place of an opened file, depending on its first bytes.
fn place_by_head<F: Read>(file: &mut F) -> Result<Place, AllocError> {
    let mut head = [0; 16];
    match answer_of(file.read_exact(&mut head))? {
        Ok(()) => Ok(Place::File {
            is_sqlite: head.as_slice() == HEAD,
        }),
        Err(error) if error.kind() == ErrorKind::UnexpectedEof => {
            Ok(Place::File { is_sqlite: false })
        }
        Err(_) => Ok(Place::Unclear),
    }
}

// Returns the place for a path at which nothing exists, except perhaps a broken link.
fn place_missing<R: Files>(files: &R, path: &str) -> Result<Place, AllocError> {
    if answer_of(fs::symlink_metadata(files, path))?.is_ok() {
        return Ok(Place::Special);
    }
    match answer_of(fs::metadata(files, folder_of(path)))? {
        Ok(folder) if folder.is_dir() => Ok(Place::NoFile),
        Ok(_) => Ok(Place::NoFolder),
        Err(error) => match error.kind() {
            ErrorKind::NotFound | ErrorKind::NotADirectory => Ok(Place::NoFolder),
            kind => Ok(place_refused(kind)),
        },
    }
}

// Returns the place for an error of the file system.
fn place_refused(kind: ErrorKind) -> Place
    ensures { result ≡ place_refused kind }
{
    match kind {
        ErrorKind::PermissionDenied | ErrorKind::ReadOnlyFilesystem => Place::NoRight,
        _ => Place::Unclear,
    }
}

// Returns the path of the folder with the object at `path`.
fn folder_of(path: &str) -> &str
    ensures { IsFolderOf path.now result.now }
{
    let Some(end) = path.rfind('/') else {
        return ".";
    };
    if end == 0 { "/" } else { &path[..end] }
}
