//! A lemma about the numbers of rows.
ghost use Rattle.std.specs.Prelude.{◌≡◌, ◌≤◌, All, length, map};
ghost use Rattle.std.specs.List.{range_with_len};
ghost use Rattle.job_facts.specs.Facts.{Facts};
ghost use Rattle.image_laws.specs.Image.{stored_batches, stored_lots, stored_sessions};
ghost use Rattle.table_rows.specs.Tables.{StoredBatch, StoredSession};

/// Lemma: each session, batch and lot has one row, and the ids of sessions and batches are 1, 2, ..
pub fn numbers_of_rows()
    ensures sessions { (f : Facts) → length f.sessions ≡ length (stored_sessions f) }
    ensures session_ids { (f : Facts) → map (λ (s : StoredSession). s.id) (stored_sessions f)
        ≡ range_with_len 1 (length f.sessions) }
    ensures session_ids_within { (f : Facts)
        → All (λ (s : StoredSession). (1 ≤ s.id) × (s.id ≤ length f.sessions))
        (stored_sessions f) }
    ensures batches { (f : Facts) → length f.batches ≡ length (stored_batches f) }
    ensures batch_ids { (f : Facts) → map (λ (b : StoredBatch). b.id) (stored_batches f)
        ≡ range_with_len 1 (length f.batches) }
    ensures batch_ids_within { (f : Facts)
        → All (λ (b : StoredBatch). (1 ≤ b.id) × (b.id ≤ length f.batches))
        (stored_batches f) }
    ensures lots { (f : Facts) → length f.lots ≡ length (stored_lots f) }
{}
