//! Reads one segment of a record.
ghost use Rattle.std.specs.Prelude.{IfOk, IfSome, IsTrue, false, map, None, ◌<◌, ◌^◌, ◌≡◌, ◌≤◌};
ghost use Rattle.sqlite.specs.Held.{state};
ghost use Rattle.sqlite.specs.State.{HasCleanDisk};
ghost use Rattle.job_facts.specs.declared.rows.SegmentRow.{SegmentRow as SegmentRowValue};
ghost use Rattle.job_facts.specs.Rows.{segment_row_of};
ghost use Rattle.row_reads.specs.CardDecoding.{IsRecordAt};
ghost use Rattle.row_reads.specs.Reads.{Looks, ReadsRows};
ghost use Rattle.store_reads.specs.Fixed.{AreNamedApart, fixed};
ghost use Rattle.store_reads.specs.Known.{AreHeadsAt, HasNoSegment, IsAllKnownIn, IsKnownIn};
ghost use Rattle.store_reads.specs.Known.{IsNamed, Knows, ReadsKnown, known_heads};
ghost use Rattle.store_reads.specs.Segments.{IsBatchProduct, product_in};
ghost use Rattle.store_reads.specs.ReadsContents.{ReadsContents};

use crate::known::{Known, KnownRecord};
use crate::plans::{SegmentHead, head_at, heads_of, joined};
use crate::records::note_standing;
use job_facts::SegmentRow;
use row_reads::{RecordAt, batch_by_name, coded_of, groupings_of, record_named};
use sqlite::{Alter, Connection, Error};
use store_data::{Name, Product};

/// The id of a batch, and its product.
#[derive(Clone, Copy)]
pub(crate) struct BatchProduct {
    /// The id of the batch.
    pub(crate) id: u64,
    /// The product of the batch.
    pub(crate) product: Product,
}

// ---- a record

// Returns the id and the product of the batch `batch`.
fn product_in<S: Alter>(
    conn: &mut Connection<S>,
    batch: &Name,
) -> Result<Option<BatchProduct>, Error>
    requires { conn.old.in_transaction ≡ false }
    ensures value { ReadsRows (state S.Store conn.old) (state S.Store conn.new) result
        (λ t answer. AreNamedApart (fixed t)
        → answer ≡ product_in t.products t.batches batch.now) }
    ensures ranged { IfOk result (λ answer. IfSome answer IsBatchProduct) }
    ensures looks { Looks (state S.Store conn.old) (state S.Store conn.new) }
{
    let Some(stored) = batch_by_name(conn, batch)? else {
        return Ok(None);
    };
    let found = row_reads::product(conn, &stored.product)?;
    Ok(found.map(|product| BatchProduct {
        id: stored.id,
        product,
    }))
}

// Returns the segments of the record at position `place` of the batch with the id `id`, without
// their bytes.
fn heads_at<S: Alter>(
    conn: &mut Connection<S>,
    id: u64,
    place: u64,
) -> Result<Vec<Vec<SegmentHead>>, Error>
    requires idle { conn.old.in_transaction ≡ false }
    requires id { id < 2 ^ 63 }
    requires place { place < 2 ^ 63 }
    ensures value { ReadsRows (state S.Store conn.old) (state S.Store conn.new) result
        (λ t heads. AreHeadsAt (fixed t) id place (map (λ own. own.items) heads.items)) }
    ensures looks { Looks (state S.Store conn.old) (state S.Store conn.new) }
{
    let groupings = groupings_of(conn, id, place)?;
    let heads = heads_of(*groupings.allocator(), groupings.as_slice())?;
    Ok(heads)
}

// Reads the record `rec` of the batch `batch`. Returns `None` if it doesn't exist.
fn record_read<S: Alter>(
    conn: &mut Connection<S>,
    batch: &Name,
    rec: &Name,
) -> Result<Option<KnownRecord>, Error>
    requires { conn.old.in_transaction ≡ false }
    ensures known { ReadsRows (state S.Store conn.old) (state S.Store conn.new) result
        (λ t found. AreNamedApart (fixed t) → IfSome found (IsKnownIn (fixed t))) }
    ensures named { IfOk result (λ found. IfSome found (IsNamed batch.now rec.now)) }
    ensures none { ReadsContents (state S.Store conn.old) (state S.Store conn.new) result
        (λ c found. found ≡ None → HasNoSegment c.facts batch.now rec.now) }
    ensures looks { Looks (state S.Store conn.old) (state S.Store conn.new) }
{
    row_laws::batches_by_name();
    row_laws::records_by_name();
    row_laws::plans_by_rows();
    let Some(found) = product_in(conn, batch)? else {
        return Ok(None);
    };
    let Some(card) = record_named(conn, found.id, rec)? else {
        return Ok(None);
    };
    let heads = heads_at(conn, found.id, card.place)?;
    Ok(Some(KnownRecord {
        batch: *batch,
        rec: *rec,
        id: found.id,
        product: found.product,
        place: card.place,
        heads,
    }))
}

// Returns the record with the state `card` and the segments `heads`, in the batch of the record
// `other`.
fn beside(other: &KnownRecord, card: &RecordAt, heads: Vec<Vec<SegmentHead>>) -> KnownRecord
    requires { IsRecordAt card.now }
    ensures batch { result.batch ≡ other.now.batch }
    ensures rec { result.rec ≡ card.now.name }
    ensures id { result.id ≡ other.now.id }
    ensures product { result.product ≡ other.now.product }
    ensures place { result.place ≡ card.now.place }
    ensures heads { known_heads result ≡ map (λ own. own.items) heads.items }
{
    KnownRecord {
        batch: other.batch,
        rec: card.name,
        id: other.id,
        product: other.product,
        place: card.place,
        heads,
    }
}

// Returns the record `rec` of the batch `batch`, or `None` if it doesn't exist. If another record
// of the batch and the state of this record are cached, only its groupings are read.
fn record_found<S: Alter>(
    conn: &mut Connection<S>,
    known: &Known,
    batch: &Name,
    rec: &Name,
) -> Result<Option<KnownRecord>, Error>
    requires { conn.old.in_transaction ≡ false }
    ensures known { ReadsRows (state S.Store conn.old) (state S.Store conn.new) result
        (λ t found. AreNamedApart (fixed t) → IsAllKnownIn t known.now
        → IfSome found (IsKnownIn (fixed t))) }
    ensures named { IfOk result (λ found. IfSome found (IsNamed batch.now rec.now)) }
    ensures none { ReadsContents (state S.Store conn.old) (state S.Store conn.new) result
        (λ c found. found ≡ None → HasNoSegment c.facts batch.now rec.now) }
    ensures looks { Looks (state S.Store conn.old) (state S.Store conn.new) }
{
    let Some(other) = known.of_batch(batch) else {
        return record_read(conn, batch, rec);
    };
    let Some(card) = known.stands(other.id, rec) else {
        return record_read(conn, batch, rec);
    };
    let heads = heads_at(conn, other.id, card.place)?;
    Ok(Some(beside(other, card, heads)))
}

// ---- a segment

// Returns segment `segment` of application `app` of the record `card`, or `None` if the record
// doesn't have it. The bytes of other segments aren't read.
fn segment_of<S: Alter>(
    conn: &mut Connection<S>,
    card: &KnownRecord,
    app: u16,
    segment: u16,
) -> Result<Option<SegmentRow>, Error>
    requires { conn.old.in_transaction ≡ false }
    ensures value { ReadsKnown card.now (state S.Store conn.old) (state S.Store conn.new) result
        (λ c answer. answer ≡ segment_row_of c.facts card.now.batch card.now.rec app segment) }
    ensures open { HasCleanDisk (state S.Store conn.new) → IfOk result (λ answer.
        IfSome answer (λ (row : SegmentRowValue). IsTrue (state S.Store conn.old).is_open)) }
    ensures ranged { IfOk result
        (λ answer. IfSome answer (λ (row : SegmentRowValue). row.low ≤ 31)) }
    ensures looks { Looks (state S.Store conn.old) (state S.Store conn.new) }
{
    row_laws::batches_by_name();
    row_laws::records_by_name();
    row_laws::plans_by_rows();
    row_laws::groupings_by_place();
    let Some(placed) = head_at(card.heads.as_slice(), app, segment) else {
        return Ok(None);
    };
    let head = placed.head;
    let coded = coded_of(conn, card.id, card.place, &head.aid, head.rank)?;
    let bytes = joined(*coded.allocator(), coded.as_slice())?;
    Ok(Some(SegmentRow {
        aid: head.aid,
        bytes,
        enc: head.enc,
        tol: head.tol,
        last: placed.last,
        max: card.product.max,
        low: card.product.low,
    }))
}

/// Returns segment `segment` of application `app` of the record `rec`, or `None` if the record
/// doesn't have it. Both numbers start at 0.
///
/// The record is read only if it isn't cached, and is cached afterwards. If a cached record doesn't
/// have the segment, its state is read and cached. Only a read shows that the connection is open,
/// and the change after the last command needs this state.
pub fn segment<S: Alter>(
    conn: &mut Connection<S>,
    known: &mut Known,
    batch: &Name,
    rec: &Name,
    app: u16,
    segment: u16,
) -> Result<Option<SegmentRow>, Error>
    requires idle { conn.old.in_transaction ≡ false }
    requires knows { Knows (state S.Store conn.old) known.old }
    ensures value { ReadsContents (state S.Store conn.old) (state S.Store conn.new) result
        (λ c answer. answer ≡ segment_row_of c.facts batch.now rec.now app segment) }
    ensures ranged { IfOk result
        (λ answer. IfSome answer (λ (row : SegmentRowValue). row.low ≤ 31)) }
    ensures knows { Knows (state S.Store conn.new) known.new }
    ensures looks { Looks (state S.Store conn.old) (state S.Store conn.new) }
{
    row_laws::batches_by_name();
    row_laws::records_by_name();
    if let Some(card) = known.named(batch, rec) {
        let id = card.id;
        if let Some(row) = segment_of(conn, card, app, segment)? {
            return Ok(Some(row));
        }
        note_standing(conn, known, id, rec)?;
        return Ok(None);
    }
    let Some(card) = record_found(conn, known, batch, rec)? else {
        return Ok(None);
    };
    let row = segment_of(conn, &card, app, segment)?;
    known.keep(card);
    Ok(row)
}
