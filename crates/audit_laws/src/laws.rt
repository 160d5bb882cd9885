//! Lemmas about the audit: it accepts exactly the rows of sound contents.
ghost use Rattle.job_facts.specs.Contents.{AreSound, Contents};
ghost use Rattle.image_laws.specs.Image.{image};
ghost use Rattle.image_laws.specs.Decided.{contents_of};
ghost use Rattle.table_rows.specs.Tables.{HaveSameRows, Tables};
ghost use Rattle.audit_laws.specs.Audited.{AreInOrder, IsAudited};

/// Lemma: audited rows represent the contents that they determine, and these contents are sound.
pub fn audited_rows_are_sound()
    ensures sound { (t : Tables) → IsAudited t → AreSound (contents_of t) }
    ensures image { (t : Tables) → IsAudited t → HaveSameRows t (image (contents_of t)) }
{}

/// Lemma: the rows of sound contents pass the audit if they are in the order of their keys.
pub fn sound_rows_are_audited()
    ensures { (c : Contents) (t : Tables) → AreSound c → AreInOrder t → HaveSameRows t (image c)
        → IsAudited t }
{}
