//! Lemmas about the definitions. A caller of the function gets its contract as a fact.
ghost use Rattle.std.specs.Prelude.{◌≡◌, ℕ, List, Ok};
ghost use Rattle.store_data.specs.declared.row.Product.{Product as ProductValue};
ghost use Rattle.store_data.specs.declared.row.Row.{Row as RowValue};
ghost use Rattle.batch_import.specs.Batch.{batch_of, batch_under};
ghost use Rattle.batch_import.specs.Fields.{Extends, Marks, two_marks};

/// Lemma: if more texts become valid values of field 4, a batch file without a fault still has no
/// fault, and its rows are the same. This applies to files from before `enc` could be `2` (this
/// project's profile).
pub fn more_marks_read_alike()
    ensures more { (few many : Marks) → Extends few many
        → (p : ProductValue) (raw : List ℕ) (rows : List RowValue)
        → batch_under few p raw ≡ Ok rows → batch_under many p raw ≡ Ok rows }
    ensures third { (p : ProductValue) (raw : List ℕ) (rows : List RowValue)
        → batch_under two_marks p raw ≡ Ok rows → batch_of p raw ≡ Ok rows }
{}
