//! Lemmas about look-ups of batches by name and by id, and about the values in their rows.
ghost use Rattle.std.specs.Prelude.{◌≡◌, ℕ, List, Some, find, option_map};
ghost use Rattle.std.specs.List.{list_any};
ghost use Rattle.job_facts.specs.Accounts.{batch_totals};
ghost use Rattle.job_facts.specs.Facts.{Batch, Facts};
ghost use Rattle.job_facts.specs.Rows.{batch_has, batch_row_of, batch_size_of};
ghost use Rattle.job_facts.specs.Sound.{IsSound};
ghost use Rattle.job_facts.specs.States.{batch_named, is_batch_finished};
ghost use Rattle.row_laws.specs.RowValues.{batch_of_row, has_raw_in, is_over_in, size_of};
ghost use Rattle.row_laws.specs.RowValues.{totals_in};
ghost use Rattle.image_laws.specs.Image.{batch_id, stored_batch, stored_batches};
ghost use Rattle.image_laws.specs.Image.{stored_groupings};
ghost use Rattle.table_rows.specs.Keys.{is_batch, is_batch_named, is_batch_with};
ghost use Rattle.table_rows.specs.Tables.{PassesOnce};

/// Lemma: a look-up of a name in the rows finds exactly the batch with this name.
pub fn batches_by_name()
    ensures once { (f : Facts) (n : List ℕ) → IsSound f
        → PassesOnce (is_batch_named n) (stored_batches f) }
    ensures found { (f : Facts) (n : List ℕ)
        → find (is_batch_named n) (stored_batches f)
        ≡ option_map (λ (b : Batch). stored_batch f (batch_id f.batches n, b))
        (batch_named f.batches n) }
{}

/// Lemma: a look-up of the id of a batch in the rows finds exactly this batch.
pub fn batches_by_id()
    ensures once { (f : Facts) (id : ℕ) → PassesOnce (is_batch id) (stored_batches f) }
    ensures found { (f : Facts) (n : List ℕ) (b : Batch) → batch_named f.batches n ≡ Some b
        → find (is_batch (batch_id f.batches n)) (stored_batches f)
        ≡ Some (stored_batch f (batch_id f.batches n, b)) }
{}

/// Lemma: the row of a batch has its counters, and shows whether all its records are good or
/// withdrawn.
pub fn totals_by_rows()
    ensures totals { (f : Facts) (n : List ℕ) → IsSound f
        → batch_totals f n ≡ totals_in (find (is_batch_named n) (stored_batches f)) }
    ensures finished { (f : Facts) (n : List ℕ) → IsSound f
        → is_batch_finished f n ≡ is_over_in (find (is_batch_named n) (stored_batches f)) }
{}

/// Lemma: the row of a batch has its product and its bytes, and shows whether it is closed.
/// Together with the rows of its groupings, it shows how many rows and records the batch has.
pub fn batches_by_rows()
    ensures row { (f : Facts) (b : List ℕ)
        → batch_row_of f b ≡ option_map batch_of_row (find (is_batch_named b) (stored_batches f)) }
    ensures bytes { (f : Facts) (b raw : List ℕ)
        → batch_has f b raw ≡ has_raw_in raw (find (is_batch_named b) (stored_batches f)) }
    ensures any_with { (f : Facts) (b raw : List ℕ) → IsSound f
        → batch_has f b raw ≡ list_any (is_batch_with b raw) (stored_batches f) }
    ensures size { (f : Facts) (b : List ℕ)
        → batch_size_of f b
        ≡ option_map (size_of (stored_groupings f)) (find (is_batch_named b) (stored_batches f)) }
{}
