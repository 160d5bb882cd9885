//! Lemmas about look-ups of records by name and by place.
ghost use Rattle.std.specs.Prelude.{◌≡◌, ◌<◌, ℕ, List, map, filter, find, AllPairs, Some, None};
ghost use Rattle.std.specs.Prelude.{bytes_eq, if◌then◌else◌, option_map};
ghost use Rattle.std.specs.List.{enumerate_from, list_any};
ghost use Rattle.job_facts.specs.declared.facts.RecordState.{RecordState as RecordStateValue};
ghost use Rattle.job_facts.specs.Facts.{Batch, Facts};
ghost use Rattle.job_facts.specs.Sound.{IsRecord};
ghost use Rattle.job_facts.specs.States.{batch_named, first_waiting, record_state_of};
ghost use Rattle.job_facts.specs.States.{records_named};
ghost use Rattle.row_laws.specs.RowValues.{place_of, record_row, waiting_in};
ghost use Rattle.image_laws.specs.WritingOf.{IsPlaceOf};
ghost use Rattle.image_laws.specs.Image.{batch_id, place_in, stored_batches, stored_record};
ghost use Rattle.image_laws.specs.Image.{stored_records};
ghost use Rattle.table_rows.specs.Keys.{is_batch_named, is_record_at, is_record_named};
ghost use Rattle.table_rows.specs.Keys.{is_record_of, is_waiting_of};
ghost use Rattle.table_rows.specs.Tables.{PassesOnce, StoredBatch, StoredRecord};

/// Lemma: a look-up of the name of a record and the id of its batch finds exactly this record. Its
/// row has its state and, together with the row of its batch, its place.
pub fn records_by_name()
    ensures once { (f : Facts) (id : ℕ) (n : List ℕ)
        → PassesOnce (is_record_named id n) (stored_records f) }
    ensures found { (f : Facts) (b n : List ℕ) (batch : Batch)
        → batch_named f.batches b ≡ Some batch
        → find (is_record_named (batch_id f.batches b) n) (stored_records f)
        ≡ (if list_any (bytes_eq n) (records_named f b) then
        Some (stored_record f (batch_id f.batches b, batch) (place_in (records_named f b) n, n))
        else None) }
    ensures state { (f : Facts) (b r : List ℕ) → record_state_of f b r
        ≡ option_map (λ (x : StoredRecord). x.state)
        (record_row (stored_batches f) (stored_records f) b r) }
    ensures place { (f : Facts) (b r : List ℕ) (row : StoredBatch) (x : StoredRecord)
        → find (is_batch_named b) (stored_batches f) ≡ Some row
        → find (is_record_named row.id r) (stored_records f) ≡ Some x
        → IsPlaceOf f b r (place_of row x) }
    ensures there { (f : Facts) (b r : List ℕ) (state : RecordStateValue)
        → record_state_of f b r ≡ Some state → (row : StoredBatch) × (x : StoredRecord)
        × (find (is_batch_named b) (stored_batches f) ≡ Some row)
        × (find (is_record_named row.id r) (stored_records f) ≡ Some x) }
{}

/// Lemma: a look-up of the place of a record and the id of its batch finds exactly this record.
pub fn records_by_place()
    ensures once { (f : Facts) (id place : ℕ)
        → PassesOnce (is_record_at id place) (stored_records f) }
    ensures found { (f : Facts) (b n : List ℕ) (batch : Batch)
        → batch_named f.batches b ≡ Some batch → IsRecord f b n
        → find (is_record_at (batch_id f.batches b) (place_in (records_named f b) n))
        (stored_records f)
        ≡ Some (stored_record f (batch_id f.batches b, batch)
        (place_in (records_named f b) n, n)) }
{}

/// Lemma: the rows of the records of a batch are in file order, with increasing places, and the
/// first waiting one has the name of the first waiting record.
pub fn records_of_batches()
    ensures rows { (f : Facts) (b : List ℕ) (batch : Batch) → batch_named f.batches b ≡ Some batch
        → filter (is_record_of (batch_id f.batches b)) (stored_records f)
        ≡ map (stored_record f (batch_id f.batches b, batch))
        (enumerate_from 0 (records_named f b)) }
    ensures rising { (f : Facts) (id : ℕ) → AllPairs (λ (x y : StoredRecord). x.place < y.place)
        (filter (is_record_of id) (stored_records f)) }
    ensures waiting_rising { (f : Facts) (id : ℕ)
        → AllPairs (λ (x y : StoredRecord). x.place < y.place)
        (filter (is_waiting_of id) (stored_records f)) }
    ensures waiting { (f : Facts) (b : List ℕ)
        → first_waiting f b ≡ waiting_in (stored_batches f) (stored_records f) b }
{}
