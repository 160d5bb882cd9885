//! Checks whether rows represent sound contents, and finds the audit rule that they break.
ghost use Rattle.std.specs.Prelude.{◌↔◌, IfOk, IfSome, IsNone, IsTrue};
ghost use Rattle.job_facts.specs.Contents.{AreSound, Contents};
ghost use Rattle.image_laws.specs.Image.{image};
ghost use Rattle.table_rows.specs.Tables.{HaveSameRows};
ghost use Rattle.audit_order.specs.Order.{AreSorted};
ghost use Rattle.audit_rows.specs.Rules.{FailsFirst, rules};

use crate::audit::failing_rule;
use crate::copying::copy_of;
use crate::rule::Rule;
use audit_order::sort_tables;
use std::alloc::{AllocError, Global};
use table_rows::Tables;

/// Returns the first audit rule that the rows break, or `None` if they represent sound contents.
/// The rows can be in any order. They are sorted, and none is lost. Takes time in O(b + n log n)
/// for n rows with b bytes.
///
/// # Errors
///
/// Returns `AllocError` if an allocation fails.
pub fn first_failing(alloc: Global, tables: &mut Tables) -> Result<Option<Rule>, AllocError>
    ensures sound { IfOk result (λ found. IsNone found ↔
        ((c : Contents) × AreSound c × HaveSameRows tables.old (image c))) }
    ensures first { IfOk result (λ found. IfSome found (FailsFirst rules tables.new)) }
    ensures sorted { IfOk result (λ _. AreSorted tables.new) }
    ensures same { HaveSameRows tables.new tables.old }
{
    audit_laws::audited_rows_are_sound();
    audit_laws::sound_rows_are_audited();
    sort_tables(tables)?;
    failing_rule(alloc, tables)
}

/// Returns `true` if the rows represent sound contents. The rows can be in any order. They are
/// sorted, and none is lost. Takes time in O(b + n log n) for n rows with b bytes.
///
/// # Errors
///
/// Returns `AllocError` if an allocation fails.
pub fn sort_and_audit(alloc: Global, tables: &mut Tables) -> Result<bool, AllocError>
    ensures exact { IfOk result (λ sound. IsTrue sound ↔
        ((c : Contents) × AreSound c × HaveSameRows tables.old (image c))) }
    ensures same { HaveSameRows tables.new tables.old }
{
    let failing = first_failing(alloc, tables)?;
    Ok(failing.is_none())
}

/// Returns `true` if the rows represent sound contents. Leaves `tables` unchanged and sorts a copy.
///
/// # Errors
///
/// Returns `AllocError` if an allocation fails.
pub fn is_sound(alloc: Global, tables: &Tables) -> Result<bool, AllocError>
    ensures { IfOk result (λ sound. IsTrue sound ↔
        ((c : Contents) × AreSound c × HaveSameRows tables.now (image c))) }
{
    let mut copy = copy_of(alloc, tables)?;
    sort_and_audit(alloc, &mut copy)
}
