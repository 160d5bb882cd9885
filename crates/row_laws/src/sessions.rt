//! Lemmas about look-ups of sessions by number and by machine.
ghost use Rattle.std.specs.Prelude.{◌≡◌, ℕ, List, Some, find, option_map};
ghost use Rattle.job_facts.specs.Facts.{Facts, Session};
ghost use Rattle.job_facts.specs.Rows.{session_row_of};
ghost use Rattle.job_facts.specs.Sound.{IsSound};
ghost use Rattle.job_facts.specs.States.{running_session, session_numbered};
ghost use Rattle.row_laws.specs.RowValues.{place_of, session_in};
ghost use Rattle.image_laws.specs.WritingOf.{IsPlaceOfSession};
ghost use Rattle.image_laws.specs.Image.{stored_batches, stored_records, stored_session};
ghost use Rattle.image_laws.specs.Image.{stored_sessions};
ghost use Rattle.table_rows.specs.Keys.{is_batch, is_record_at, is_running_on, is_session};
ghost use Rattle.table_rows.specs.Tables.{PassesOnce, StoredBatch, StoredRecord, StoredSession};

/// Lemma: a look-up of the number of a session finds exactly this session. Its row leads to the
/// rows of its batch and record, which have their names and the place of the record.
pub fn sessions_by_number()
    ensures once { (f : Facts) (id : ℕ) → PassesOnce (is_session id) (stored_sessions f) }
    ensures found { (f : Facts) (id : ℕ) → find (is_session id) (stored_sessions f)
        ≡ option_map (λ (x : Session). stored_session f (id, x))
        (session_numbered f.sessions id) }
    ensures row { (f : Facts) (id : ℕ) → IsSound f → session_row_of f id
        ≡ session_in (stored_sessions f) (stored_batches f) (stored_records f) id }
    ensures place { (f : Facts) (id : ℕ) (s : StoredSession) (b : StoredBatch) (r : StoredRecord)
        → IsSound f → find (is_session id) (stored_sessions f) ≡ Some s
        → find (is_batch s.batch) (stored_batches f) ≡ Some b
        → find (is_record_at s.batch s.place) (stored_records f) ≡ Some r
        → IsPlaceOfSession f id (place_of b r) }
    ensures there { (f : Facts) (id : ℕ) (x : Session) → IsSound f
        → session_numbered f.sessions id ≡ Some x
        → (s : StoredSession) × (b : StoredBatch) × (r : StoredRecord)
        × (find (is_session id) (stored_sessions f) ≡ Some s)
        × (find (is_batch s.batch) (stored_batches f) ≡ Some b)
        × (find (is_record_at s.batch s.place) (stored_records f) ≡ Some r) }
{}

/// Lemma: a machine has at most one row of a running session, which has the number of this session.
pub fn running_sessions_by_machine()
    ensures once { (f : Facts) (machine : List ℕ) → IsSound f
        → PassesOnce (is_running_on machine) (stored_sessions f) }
    ensures number { (f : Facts) (machine : List ℕ) → running_session f machine
        ≡ option_map (λ (s : StoredSession). s.id)
        (find (is_running_on machine) (stored_sessions f)) }
{}
