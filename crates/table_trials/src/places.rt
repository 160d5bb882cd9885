//! Tests that a failed allocation in the file system is reported as such, and never as a property
//! of the path, and that a database file is created only if nothing has its path.
use over_tables::Wanted;
use std::alloc::{Alloc, AllocError, AllocGlobal, Allocator, Global};
use std::cell::Cell;
use std::env;
use std::fs::{self, Files, Metadata, OpenFile, OpenOptions, Permissions};
use std::io::{self, ErrorKind, Write};
use std::os::unix::fs::{MetadataExt, PermissionsExt, symlink};
use std::path::PathBuf;
use std::process::{self, Abort};
use std::test::Fail;
use store_files::{Place, create_private, has_log, place_of};

// A file system in which one call runs out of memory. `answers` is the number of calls before it.
#[derive(Drop)]
struct OutOfMemory<'a, R> {
    rt: &'a R,
    answers: u32,
    asked: Cell<u32>,
}

impl<'a, R> OutOfMemory<'a, R> {
    fn after(rt: &'a R, answers: u32) -> OutOfMemory<'a, R> {
        OutOfMemory {
            rt,
            answers,
            asked: Cell::new(0),
        }
    }

    // Counts a call, and fails if it is the one that runs out of memory.
    fn take(&self) -> io::Result<()> {
        let asked = self.asked.get();
        self.asked.set(asked.saturating_add(1));
        if asked == self.answers {
            return Err(io::Error::from(ErrorKind::OutOfMemory));
        }
        Ok(())
    }
}

impl<R: AllocGlobal> Alloc for OutOfMemory<'_, R> {
    type A = Global;

    fn alloc(&self) -> Global {
        self.rt.alloc()
    }
}

impl<R: Files> Files for OutOfMemory<'_, R> {
    type File = R::File;

    type Dir = R::Dir;

    fn open_file(&self, how: &OpenOptions, path: &str) -> io::Result<R::File> {
        self.take()?;
        self.rt.open_file(how, path)
    }

    fn metadata(&self, path: &str) -> io::Result<Metadata> {
        self.take()?;
        self.rt.metadata(path)
    }

    fn symlink_metadata(&self, path: &str) -> io::Result<Metadata> {
        self.take()?;
        self.rt.symlink_metadata(path)
    }

    fn canonicalize<B: Allocator>(&self, alloc: B, path: &str) -> io::Result<PathBuf<B>> {
        self.take()?;
        self.rt.canonicalize(alloc, path)
    }

    fn open_dir(&self, path: &str) -> io::Result<R::Dir> {
        self.rt.open_dir(path)
    }

    fn copy(&self, from: &str, to: &str) -> io::Result<u64> {
        self.rt.copy(from, to)
    }

    fn rename(&self, from: &str, to: &str) -> io::Result<()> {
        self.rt.rename(from, to)
    }

    fn remove_file(&self, path: &str) -> io::Result<()> {
        self.rt.remove_file(path)
    }

    fn create_dir(&self, path: &str) -> io::Result<()> {
        self.rt.create_dir(path)
    }

    fn remove_dir(&self, path: &str) -> io::Result<()> {
        self.rt.remove_dir(path)
    }

    fn remove_dir_all<B: Allocator>(&self, alloc: B, path: &str) -> io::Result<()> {
        self.rt.remove_dir_all(alloc, path)
    }
}

// Creates a folder for this process and this test, and returns its path.
fn folder_of(rt: &HostRuntime, name: &str) -> io::Result<String> {
    let folder = env::temp_dir(rt)?;
    let (folder, number) = (folder.as_str(), process::id(rt.process()));
    let path = format!(in rt.alloc(); "{folder}/neqtyrab-{name}-{number}")?;
    fs::create_dir(rt, path.as_str())?;
    Ok(path)
}

// Returns the path of a file in a folder.
fn within(rt: &HostRuntime, folder: &str, name: &str) -> Result<String, AllocError> {
    format!(in rt.alloc(); "{folder}/{name}")
}

// Creates a file with the given bytes.
fn write(rt: &HostRuntime, path: &str, bytes: &[u8]) -> io::Result<()> {
    let mut file = fs::create(rt, path)?;
    file.write_all(bytes)
}

// Returns the mode of the file at `path`: its nine permission bits.
fn mode_of(rt: &HostRuntime, path: &str) -> io::Result<u32> {
    Ok(fs::metadata(rt, path)?.mode() & 0o777)
}

// Sets the mode of the file at `path`.
fn set_mode(rt: &HostRuntime, path: &str, mode: u32) -> io::Result<()> {
    fs::open(rt, path)?.set_permissions(Permissions::from_mode(mode))
}

// Checks the result of `place_of` for a failed allocation in each of its calls of the file system,
// and for none. `answers` is the number of these calls.
fn check_place<R: Files + AllocGlobal + Abort>(rt: &R, path: &str, answers: u32, place: Place) {
    for answers in 0..answers {
        let refusing = OutOfMemory::after(rt, answers);
        assert_eq!(rt;
            place_of(&refusing, path),
            Err(AllocError),
            "{path} {answers}"
        );
    }
    assert_eq!(rt; place_of(&OutOfMemory::after(rt, answers), path), Ok(place));
}

// Checks `has_log` in the same way, for a path with a WAL.
fn check_log<R: Files + AllocGlobal + Abort>(rt: &R, path: &str) {
    for answers in 0..2 {
        let refusing = OutOfMemory::after(rt, answers);
        assert_eq!(rt; has_log(&refusing, path), Err(AllocError), "{answers}");
    }
    assert_eq!(rt; has_log(&OutOfMemory::after(rt, 2), path), Ok(true));
}

#[test]
fn refused_memory_is_no_answer(rt: HostRuntime) -> Result<(), Fail> {
    let folder = folder_of(&rt, "refused")?;
    let folder = folder.as_str();
    let path = within(&rt, folder, "shop.db")?;
    let path = path.as_str();
    write(&rt, path, b"SQLite format 3\0")?;
    let log = format!(in rt.alloc(); "{path}-wal")?;
    write(&rt, log.as_str(), [0; 42].as_slice())?;
    check_log(&rt, path);
    assert_eq!(rt; fs::read(&rt, log.as_str())?.as_slice(), [0; 42].as_slice());
    check_place(&rt, path, 5, Place::File { is_sqlite: true });
    let journal = format!(in rt.alloc(); "{path}-journal")?;
    write(&rt, journal.as_str(), b"\xd9\xd5\x05\xf9\x20\xa1\x63\xd7")?;
    check_place(&rt, path, 4, Place::Journal);
    check_place(&rt, folder, 2, Place::Folder);
    let none = within(&rt, folder, "none.db")?;
    check_place(&rt, none.as_str(), 4, Place::NoFile);
    let lost = within(&rt, folder, "lost/shop.db")?;
    check_place(&rt, lost.as_str(), 4, Place::NoFolder);
    check_place(&rt, "file:shop.db", 0, Place::Special);
    fs::remove_dir_all(&rt, folder)?;
    Ok(())
}

// `create_private` creates a file only if `wanted` allows a new store and nothing has the path, not
// even a broken link. It also returns `Ok` if the file can't be created: the open that follows
// finds the cause.
#[test]
fn a_file_is_made_where_nothing_is(rt: HostRuntime) -> Result<(), Fail> {
    let folder = folder_of(&rt, "made")?;
    let folder = folder.as_str();
    let path = within(&rt, folder, "shop.db")?;
    let path = path.as_str();
    let refusing = OutOfMemory::after(&rt, 0);
    assert_eq!(rt;
        create_private(&refusing, path, Wanted::Any),
        Err(AllocError)
    );
    assert_eq!(rt; create_private(&rt, path, Wanted::Ours), Ok(()));
    assert!(rt; !fs::exists(&rt, path)?);
    assert_eq!(rt; create_private(&rt, path, Wanted::Any), Ok(()));
    assert_eq!(rt; fs::metadata(&rt, path)?.len(), 0);
    assert_eq!(rt; mode_of(&rt, path)?, 0o600);
    write(&rt, path, b"kept")?;
    set_mode(&rt, path, 0o644)?;
    assert_eq!(rt; create_private(&rt, path, Wanted::Any), Ok(()));
    assert_eq!(rt; fs::metadata(&rt, path)?.len(), 4);
    assert_eq!(rt; mode_of(&rt, path)?, 0o644);
    let link = within(&rt, folder, "link.db")?;
    let none = within(&rt, folder, "none.db")?;
    symlink(&rt, none.as_str(), link.as_str())?;
    let lost = within(&rt, folder, "lost/shop.db")?;
    for path in [link.as_str(), lost.as_str(), folder] {
        assert_eq!(rt; create_private(&rt, path, Wanted::Any), Ok(()), "{path}");
    }
    assert!(rt; !fs::exists(&rt, none.as_str())?);
    fs::remove_dir_all(&rt, folder)?;
    Ok(())
}
