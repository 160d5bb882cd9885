//! Lemmas: the rows of an image determine the contents.
ghost use Rattle.job_facts.specs.Contents.{AreSame, AreSound, Contents};
ghost use Rattle.image_laws.specs.Image.{image};
ghost use Rattle.table_rows.specs.Tables.{HaveSameRows, Tables};
ghost use Rattle.image_laws.specs.Decided.{contents_of};

/// Lemma: the rows of sound contents, in any order, determine these contents. Sets and maps can be
/// in a different order.
pub fn rows_decide_contents()
    ensures { (c : Contents) (t : Tables) → AreSound c → HaveSameRows t (image c)
        → AreSame (contents_of t) c }
{}

/// Lemma: sound contents with the same rows are the same, except for the order of sets and maps.
pub fn same_rows_same_contents()
    ensures { (c d : Contents) → AreSound c → AreSound d → HaveSameRows (image c) (image d)
        → AreSame c d }
{}
