//! Creates the database file of a new store, which only its owner may read and write.
//!
//! SQLite would create it with mode 0644. The file contains card data in clear text, and its WAL
//! gets the same mode.
ghost use Rattle.std.specs.Prelude.{◌≡◌, codes, Ok};

use crate::place::{answer_of, names_no_file};
use over_tables::Wanted;
use std::alloc::AllocError;
use std::fs::{Files, OpenFile, OpenOptions, Permissions};
use std::os::unix::fs::{OpenOptionsExt, PermissionsExt};

/// The mode of a file that only its owner may read and write.
const PRIVATE: u32 = 0o600;

/// Creates an empty file at `path`, with mode 0600 regardless of the umask, if `wanted` allows a
/// new store and nothing has the path, not even a broken link. An existing file isn't changed. Only
/// tests show this. If the file can't be created, the function still returns `Ok`: the open that
/// follows finds the reason.
///
/// # Errors
///
/// Returns `AllocError` if an allocation fails.
pub fn create_private<R: Files>(files: &R, path: &str, wanted: Wanted) -> Result<(), AllocError>
    ensures memory { path.now ≡ codes ":memory:" → result ≡ Ok tt }
{
    if wanted == Wanted::Ours || names_no_file(path) {
        return Ok(());
    }
    let mut options = OpenOptions::new();
    options.write(true).create_new(true).mode(PRIVATE);
    if let Ok(file) = answer_of(options.open(files, path))? {
        // The umask may have removed permissions of the owner.
        let _ = answer_of(file.set_permissions(Permissions::from_mode(PRIVATE)))?;
    }
    Ok(())
}
