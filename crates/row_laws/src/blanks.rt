//! Lemmas about look-ups of blanks by serial, and of lots by name and by range.
ghost use Rattle.std.specs.Prelude.{◌≡◌, ℕ, List, Some, find, is_some, map, option_map};
ghost use Rattle.std.specs.List.{list_any};
ghost use Rattle.job_facts.specs.declared.facts.Lot.{Lot as LotValue};
ghost use Rattle.job_facts.specs.Facts.{Facts};
ghost use Rattle.job_facts.specs.Sound.{IsSound};
ghost use Rattle.job_facts.specs.States.{any_overlaps, is_charged, lot_named, lot_of};
ghost use Rattle.image_laws.specs.Image.{stored_blanks, stored_lot, stored_lots};
ghost use Rattle.step_laws.specs.Sums.{discarded_in};
ghost use Rattle.table_rows.specs.Keys.{is_blank, is_lot_across, is_lot_around, is_lot_named};
ghost use Rattle.table_rows.specs.Tables.{PassesOnce, StoredLot};

/// Lemma: a serial has a row in `blank` if and only if it is charged, and never more than one.
pub fn blanks_by_serial()
    ensures once { (f : Facts) (n : ℕ) → IsSound f → PassesOnce (is_blank n) (stored_blanks f) }
    ensures charged { (f : Facts) (n : ℕ)
        → is_charged f n ≡ list_any (is_blank n) (stored_blanks f) }
    ensures found { (f : Facts) (n : ℕ)
        → is_charged f n ≡ is_some (find (is_blank n) (stored_blanks f)) }
{}

/// Lemma: a look-up of a name in the rows finds exactly the lot with this name, with the number of
/// its discarded blanks.
pub fn lots_by_name()
    ensures once { (f : Facts) (n : List ℕ) → IsSound f
        → PassesOnce (is_lot_named n) (stored_lots f) }
    ensures found { (f : Facts) (n : List ℕ)
        → find (is_lot_named n) (stored_lots f) ≡ option_map (stored_lot f) (lot_named f.lots n) }
    ensures lot { (f : Facts) (n : List ℕ) → lot_named f.lots n
        ≡ option_map (λ (l : StoredLot). l.lot) (find (is_lot_named n) (stored_lots f)) }
    ensures all { (f : Facts) → map (λ (l : StoredLot). l.lot) (stored_lots f) ≡ f.lots }
    ensures discarded { (f : Facts) (n : List ℕ) (row : StoredLot)
        → find (is_lot_named n) (stored_lots f) ≡ Some row
        → (lot_named f.lots n ≡ Some row.lot) × (row.discarded ≡ discarded_in f row.lot) }
{}

/// Lemma: a look-up of a serial in the rows finds exactly the lot that contains it. A look-up of a
/// range of serials finds a lot if and only if a lot contains one of them.
pub fn lots_by_range()
    ensures once { (f : Facts) (serial : ℕ) → IsSound f
        → PassesOnce (is_lot_around serial) (stored_lots f) }
    ensures found { (f : Facts) (serial : ℕ)
        → find (is_lot_around serial) (stored_lots f)
        ≡ option_map (stored_lot f) (lot_of f.lots serial) }
    ensures lot { (f : Facts) (serial : ℕ) → lot_of f.lots serial
        ≡ option_map (λ (l : StoredLot). l.lot) (find (is_lot_around serial) (stored_lots f)) }
    ensures named { (f : Facts) (serial : ℕ) (l : LotValue) → IsSound f
        → lot_of f.lots serial ≡ Some l → lot_named f.lots l.name ≡ Some l }
    ensures overlaps { (f : Facts) (first count : ℕ) → any_overlaps f.lots first count
        ≡ list_any (is_lot_across first count) (stored_lots f) }
    ensures shares { (f : Facts) (first count : ℕ) → any_overlaps f.lots first count
        ≡ is_some (find (is_lot_across first count) (stored_lots f)) }
{}
