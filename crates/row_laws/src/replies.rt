//! A lemma about look-ups of kept replies and release marks.
ghost use Rattle.std.specs.Prelude.{ℕ, List, map};
ghost use Rattle.job_facts.specs.Contents.{AreSound, Contents, Mark, has_mark};
ghost use Rattle.job_facts.specs.Sound.{AreNamedOnce};
ghost use Rattle.image_laws.specs.Image.{image};
ghost use Rattle.table_rows.specs.Keys.{is_reply_to};
ghost use Rattle.table_rows.specs.Tables.{PassesOnce};

/// Lemma: a request number of a client has at most one kept reply, and a client at most one release
/// mark.
pub fn replies_by_number()
    ensures once { (c : Contents) (client : List ℕ) (number : ℕ) → AreSound c
        → PassesOnce (is_reply_to client number) (image c).replies }
    ensures mark_once { (c : Contents) (client : List ℕ) → AreSound c
        → PassesOnce (has_mark client) (image c).marks }
    ensures marks_named { (c : Contents) → AreSound c
        → AreNamedOnce (map (λ (m : Mark). m.client) (image c).marks) }
{}
