//! The contents that runs of a server find in two files, and leave there.
ghost use Rattle.file_runs.specs.Files.{FindRuns, LeaveRuns, RefuseRuns};

use crate::runs::runs_go_on;
use schema::SqlStore;
use sqlite::FileStore;
use sqlite_disk::Disk;

/// Lemma: a store that is opened over two files starts with the contents of their database. If the
/// files hold the contents of several runs of a server, these contents are possible after the runs.
pub fn runs_find_files<D: Disk + Drop>()
    ensures { FindRuns D.Disk }
{
    runs_go_on::<SqlStore<FileStore<D>>>();
}

/// Lemma: if a server starts with contents that are possible after the runs before it, then its
/// files hold the contents of all these runs afterwards. This is true after an ordinary exit, and
/// after a crash at any exit.
pub fn files_keep_runs<D: Disk + Drop>()
    ensures { LeaveRuns D.Disk }
{
    runs_go_on::<SqlStore<FileStore<D>>>();
}

/// Lemma: if the database is refused, a crash leaves files that still hold the contents of the runs
/// before.
pub fn refused_files_keep_runs<D: Disk + Drop>()
    ensures { RefuseRuns D.Disk }
{}
