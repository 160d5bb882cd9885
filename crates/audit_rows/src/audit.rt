//! Audits sorted rows, rule by rule.
ghost use Rattle.std.specs.Prelude.{◌≤◌, ◌↔◌, ℕ, List, IfOk, IsTrue, count_by};
ghost use Rattle.table_rows.specs.Keys.{is_running_on};
ghost use Rattle.audit_rows.specs.Rules.{Holds, IsFirstFailing, IsReadyFor, rules};
ghost use Rattle.audit_order.specs.Order.{AreSorted};

use crate::blanks::{are_audited_blanks, has_counts, has_once, has_opened};
use crate::ids::are_counted;
use crate::machines::run_once;
use crate::named::{are_lots, are_products};
use crate::numbered::{are_batches, has_owners};
use crate::replies::{are_kept_once, are_marked_once, are_unreleased, has_entries, has_marks};
use crate::rule::Rule;
use audit_cards::{has_files, has_remakes, has_words};
use std::alloc::{AllocError, Global};
use table_rows::Tables;

// All rules, in the order in which they are checked.
const RULES: [Rule; 19] = [
    Rule::Products,
    Rule::Lots,
    Rule::Batches,
    Rule::BatchIds,
    Rule::SessionIds,
    Rule::Owners,
    Rule::Files,
    Rule::Words,
    Rule::Remakes,
    Rule::Machines,
    Rule::LotCounters,
    Rule::BlankTwice,
    Rule::BlankLots,
    Rule::OpenedBlanks,
    Rule::Marks,
    Rule::Replies,
    Rule::MarkTwice,
    Rule::ReleasedReplies,
    Rule::ReplyTwice,
];

// Returns `true` if no machine has two running sessions.
fn has_machines(alloc: Global, tables: &Tables) -> Result<bool, AllocError>
    ensures { IfOk result (λ once. IsTrue once
        ↔ ((machine : List ℕ) → count_by (is_running_on machine) tables.now.sessions ≤ 1)) }
{
    run_once(alloc, &tables.sessions)
}

// Returns `true` if the rows obey `rule`.
fn holds(alloc: Global, tables: &Tables, rule: Rule) -> Result<bool, AllocError>
    requires { IsReadyFor rule tables.now }
    ensures { IfOk result (λ holds. IsTrue holds ↔ Holds rule tables.now) }
{
    match rule {
        Rule::Products => Ok(are_products(&tables.products)),
        Rule::Lots => Ok(are_lots(&tables.products, &tables.lots)),
        Rule::Batches => Ok(are_batches(&tables.batches)),
        Rule::BatchIds => Ok(are_counted(tables.batches.as_slice())),
        Rule::SessionIds => Ok(are_counted(tables.sessions.as_slice())),
        Rule::Owners => Ok(has_owners(tables)),
        Rule::Files => has_files(alloc, tables),
        Rule::Words => Ok(has_words(tables)),
        Rule::Remakes => Ok(has_remakes(tables)),
        Rule::Machines => has_machines(alloc, tables),
        Rule::LotCounters => has_counts(alloc, tables),
        Rule::BlankTwice => Ok(has_once(tables)),
        Rule::BlankLots => Ok(are_audited_blanks(tables, &tables.blanks)),
        Rule::OpenedBlanks => has_opened(alloc, tables),
        Rule::Marks => Ok(has_marks(tables)),
        Rule::Replies => Ok(has_entries(tables)),
        Rule::MarkTwice => are_marked_once(alloc, &tables.marks),
        Rule::ReleasedReplies => are_unreleased(alloc, &tables.marks, &tables.replies),
        Rule::ReplyTwice => are_kept_once(alloc, &tables.replies),
    }
}

/// Returns the first rule that the sorted rows break.
///
/// # Errors
///
/// Returns `AllocError` if an allocation fails.
pub(crate) fn failing_rule(alloc: Global, tables: &Tables) -> Result<Option<Rule>, AllocError>
    requires { AreSorted tables.now }
    ensures { IfOk result (IsFirstFailing rules tables.now) }
{
    for rule in RULES {
        if !holds(alloc, tables, rule)? {
            return Ok(Some(rule));
        }
    }
    Ok(None)
}
