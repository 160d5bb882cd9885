//! Lemmas about the rows of `grouping2`, and about plans.
ghost use Rattle.std.specs.Prelude.{◌≡◌, ◌<◌, ℕ, List, length, map, filter, AllPairs, Some};
ghost use Rattle.std.specs.Prelude.{bytes_eq};
ghost use Rattle.std.specs.List.{enumerate_from};
ghost use Rattle.store_data.specs.declared.row.Row.{Row};
ghost use Rattle.job_facts.specs.Facts.{Batch, Facts};
ghost use Rattle.job_facts.specs.Sound.{IsRecord};
ghost use Rattle.job_facts.specs.States.{batch_named, plan_for, records_named, rows_of};
ghost use Rattle.job_facts.specs.States.{rows_of_record};
ghost use Rattle.row_laws.specs.RowValues.{plan_in, row_of};
ghost use Rattle.image_laws.specs.Image.{batch_id, place_in, stored_batches, stored_grouping};
ghost use Rattle.image_laws.specs.Image.{stored_groupings, stored_records};
ghost use Rattle.table_rows.specs.Keys.{is_grouping_at, is_grouping_of};
ghost use Rattle.table_rows.specs.Tables.{StoredGrouping};

/// Lemma: the rows of `grouping2` for a record, in the order of `line`, are its rows in the batch
/// file. A batch has one row of `grouping2` for each row of its file.
pub fn groupings_by_place()
    ensures rows { (f : Facts) (b r : List ℕ) (batch : Batch)
        → batch_named f.batches b ≡ Some batch → IsRecord f b r
        → filter (is_grouping_at (batch_id f.batches b) (place_in (records_named f b) r))
        (stored_groupings f)
        ≡ map (stored_grouping f (batch_id f.batches b, batch))
        (filter (λ (e : ℕ × Row). bytes_eq e.1.rec r)
        (enumerate_from 2 (rows_of f.products batch))) }
    ensures rising { (f : Facts) (id place : ℕ)
        → AllPairs (λ (x y : StoredGrouping). x.line < y.line)
        (filter (is_grouping_at id place) (stored_groupings f)) }
    ensures read { (f : Facts) (b r : List ℕ) (batch : Batch)
        → batch_named f.batches b ≡ Some batch → IsRecord f b r
        → map (row_of r)
        (filter (is_grouping_at (batch_id f.batches b) (place_in (records_named f b) r))
        (stored_groupings f))
        ≡ rows_of_record (rows_of f.products batch) r }
    ensures number { (f : Facts) (b : List ℕ) (batch : Batch)
        → batch_named f.batches b ≡ Some batch
        → length (filter (is_grouping_of (batch_id f.batches b)) (stored_groupings f))
        ≡ length (rows_of f.products batch) }
{}

/// Lemma: the rows of a batch, a record and its groupings determine the plan of the record.
pub fn plans_by_rows()
    ensures { (f : Facts) (b r : List ℕ) → plan_for f b r
        ≡ plan_in f.products (stored_batches f) (stored_records f) (stored_groupings f) b r }
{}
