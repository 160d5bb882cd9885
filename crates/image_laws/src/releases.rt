//! A lemma about the rows after a release.
ghost use Rattle.std.specs.Prelude.{ℕ};
ghost use Rattle.job_facts.specs.Contents.{AreSound, Contents, Entry, IsOwedRelease, released};
ghost use Rattle.image_laws.specs.Image.{image};
ghost use Rattle.table_rows.specs.declared.writing.Writing.TheVariants as writing;
ghost use Rattle.table_rows.specs.After.{rows_written};
ghost use Rattle.table_rows.specs.Tables.{HaveSameRows};

/// Lemma: a release removes the kept replies of its client up to `upto`, and its old release mark.
/// It adds the new release mark and its own reply, one row in each table.
pub fn rows_after_release()
    ensures { (c : Contents) (upto : ℕ) (entry : Entry) → AreSound c → IsOwedRelease upto entry c
        → HaveSameRows (image (released c upto entry))
        (rows_written (writing.Releases entry.client upto) entry (image c)) }
{}
