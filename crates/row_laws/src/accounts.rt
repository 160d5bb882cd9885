//! Lemmas about the accounts of the records of a batch and of the blanks of a product.
ghost use Rattle.std.specs.Prelude.{◌≡◌, ℕ, List, filter};
ghost use Rattle.job_facts.specs.Accounts.{blank_totals, record_lines};
ghost use Rattle.job_facts.specs.Facts.{Facts};
ghost use Rattle.job_facts.specs.Sound.{IsSound};
ghost use Rattle.table_rows.specs.Keys.{is_batch_for, is_lot_for};
ghost use Rattle.row_laws.specs.RowValues.{blanks_of, lines_in};
ghost use Rattle.image_laws.specs.Image.{stored_batches, stored_lots, stored_records};
ghost use Rattle.image_laws.specs.Image.{stored_sessions};

/// Lemma: the rows of the records of a batch and of its good sessions determine the lines of its
/// records.
pub fn lines_by_rows()
    ensures { (f : Facts) (b : List ℕ) → IsSound f → record_lines f b
        ≡ lines_in (stored_batches f) (stored_records f) (stored_sessions f) b }
{}

/// Lemma: the rows of the lots and batches of a product determine the counters of its blanks.
pub fn blanks_by_rows()
    ensures { (f : Facts) (p : List ℕ) → IsSound f → blank_totals f p
        ≡ blanks_of (filter (is_lot_for p) (stored_lots f))
        (filter (is_batch_for p) (stored_batches f)) }
{}
