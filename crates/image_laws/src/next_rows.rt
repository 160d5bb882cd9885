//! Lemmas about the rows of the next contents.
ghost use Rattle.job_facts.specs.declared.change.Change.{Change};
ghost use Rattle.job_facts.specs.declared.change.Change.TheVariants as change;
ghost use Rattle.job_facts.specs.Contents.{Contents, Entry, committed};
ghost use Rattle.job_facts.specs.Sound.{IsSound, IsSoundChange, changed};
ghost use Rattle.image_laws.specs.Image.{image};
ghost use Rattle.image_laws.specs.WritingOf.{IsWritingOf};
ghost use Rattle.table_rows.specs.declared.writing.Writing.{Writing};
ghost use Rattle.table_rows.specs.After.{rows_after};
ghost use Rattle.table_rows.specs.Tables.{HaveSameRows, with_reply};

/// Lemma: a reply without a change adds one row to `reply`, and changes nothing else.
pub fn rows_with_reply()
    ensures { (c : Contents) (entry : Entry) → HaveSameRows
        (image (committed c change.Nothing entry)) (with_reply entry (image c)) }
{}

/// Lemma: the rows after a change are the rows after executing its writing.
pub fn rows_after_change()
    ensures { (c : Contents) (change : Change) (w : Writing) → IsSound c.facts
        → IsSoundChange c.facts change → IsWritingOf c.facts change w
        → HaveSameRows (image (record c { facts = changed c.facts change }))
        (rows_after w (image c)) }
{}
