//! The segments of a record without their bytes, computed from its groupings without their bytes.
ghost use Rattle.std.specs.Prelude.{◌≡◌, All, IfOk, map};
ghost use Rattle.std.specs.List.{flat_map};
ghost use Rattle.store_data.specs.Groups.{grouped};
ghost use Rattle.row_reads.specs.CardDecoding.{IsGroupingAt};
ghost use Rattle.row_reads.specs.declared.groupings.CodedAt.{CodedAt as CodedAtValue};
ghost use Rattle.row_reads.specs.declared.groupings.GroupingAt.{GroupingAt as GroupingAtValue};
ghost use Rattle.store_reads.specs.Segments.{head_at, heads_in, heads_of};

use indexmap::IndexSet;
use row_reads::{CodedAt, GroupingAt};
use std::alloc::{AllocError, Global};
use store_data::{Aid, Bytes, Enc, join_at};

/// A segment without its bytes: its application, its rank, and the encryption and tolerance of its
/// groupings.
#[derive(Clone, Copy)]
pub(crate) struct SegmentHead {
    /// The application identifier.
    pub(crate) aid: Aid,
    /// The rank.
    pub(crate) rank: u16,
    /// The encryption.
    pub(crate) enc: Enc,
    /// `true` if the segment is tolerant.
    pub(crate) tol: bool,
}

/// A segment without its bytes, as part of its application.
#[derive(Clone, Copy)]
pub(crate) struct PlacedHead {
    /// The segment.
    pub(crate) head: SegmentHead,
    /// `true` if it is the last segment of its application.
    pub(crate) last: bool,
}

// Returns the groupings by application. The applications are in the order of their first groupings.
fn by_application(
    alloc: Global,
    groupings: &[GroupingAt],
) -> Result<Vec<Vec<GroupingAt>>, AllocError>
    ensures { IfOk result (λ groups. map (λ own. own.items) groups.items
        ≡ grouped (λ (g : GroupingAtValue). g.aid) groupings.now) }
{
    let mut aids = IndexSet::new(alloc);
    let mut groups = Vec::new(alloc);
    for g in groupings {
        let (place, _) = aids.insert_full(g.aid)?;
        join_at(alloc, &mut groups, place, *g)?;
    }
    Ok(groups)
}

/// The highest rank plus 1.
const RANKS: usize = 1000;

// Returns the segments of one application, in ascending order of their ranks. `own` contains the
// groupings of the application.
fn heads_in(alloc: Global, own: &[GroupingAt]) -> Result<Vec<SegmentHead>, AllocError>
    requires { All IsGroupingAt own.now }
    ensures { IfOk result (λ heads. heads.items ≡ heads_in own.now) }
{
    let mut firsts = [None; RANKS];
    for g in own {
        let rank = usize::from(g.rank);
        if firsts[rank].is_none() {
            firsts[rank] = Some(SegmentHead {
                aid: g.aid,
                rank: g.rank,
                enc: g.enc,
                tol: g.tol,
            });
        }
    }
    let mut heads = Vec::new(alloc);
    for rank in 1..RANKS {
        if let Some(head) = firsts[rank] {
            heads.push(head)?;
        }
    }
    Ok(heads)
}

/// Returns the segments of a record with the groupings `groupings`, in one list for each
/// application. A segment can then be found in a time that doesn't depend on the number of
/// segments.
///
/// # Errors
///
/// Returns `AllocError` if an allocation fails.
pub(crate) fn heads_of(
    alloc: Global,
    groupings: &[GroupingAt],
) -> Result<Vec<Vec<SegmentHead>>, AllocError>
    requires { All IsGroupingAt groupings.now }
    ensures { IfOk result
        (λ heads. map (λ own. own.items) heads.items ≡ heads_of groupings.now) }
{
    let groups = by_application(alloc, groupings)?;
    let mut heads = Vec::with_capacity(alloc, groups.len())?;
    for own in &groups {
        heads.push(heads_in(alloc, own.as_slice())?)?;
    }
    Ok(heads)
}

/// Returns segment `segment` of application `app`. Both numbers start at 0.
pub(crate) fn head_at(heads: &[Vec<SegmentHead>], app: u16, segment: u16) -> Option<PlacedHead>
    ensures { result ≡ head_at (map (λ own. own.items) heads.now) app segment }
{
    let own = heads.get(usize::from(app))?;
    let place = usize::from(segment);
    let head = *own.get(place)?;
    Some(PlacedHead {
        head,
        last: place + 1 == own.len(),
    })
}

/// Returns the joined bytes of `groupings`.
///
/// # Errors
///
/// Returns `AllocError` if an allocation fails.
pub(crate) fn joined(alloc: Global, groupings: &[CodedAt]) -> Result<Bytes, AllocError>
    ensures { IfOk result
        (λ bytes. bytes ≡ flat_map (λ (g : CodedAtValue). g.coded) groupings.now) }
{
    let mut bytes = Vec::new(alloc);
    for g in groupings {
        bytes.extend_from_slice(g.coded.as_slice())?;
    }
    Ok(Bytes::from_vec(bytes))
}
