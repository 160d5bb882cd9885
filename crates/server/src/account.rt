//! Makes the response to a request for an account or a report.
ghost use Rattle.std.specs.Prelude.{◌≡◌, IfOk};
ghost use Rattle.job_facts.specs.Store.{Reads, Stays};
ghost use Rattle.reports.specs.Answers.{AnswersText};
ghost use Rattle.arrivals.specs.HttpReplies.{http_reply_of};
ghost use Rattle.job_facts.specs.declared.reply.Reply.TheVariants.{Refused};
ghost use Rattle.server.specs.Replies.{account_kind, account_of, account_text, http_reply_text};
ghost use Rattle.server.specs.Replies.{unknown_of};
ghost use Rattle.server.specs.Answers.{answer_text};

use arrivals::{body_of, status_of};
use http_messages::Content;
use http_requests::Wanted;
use job_facts::{JobStore, Refusal, Reply, StoreFault};
use reports::{AccountFault, batch_counts, blank_counts, report_of};
use std::alloc::{AllocError, Global};
use store_data::Bytes;

/// A response without its head.
#[derive(Drop)]
pub(crate) struct Answer {
    pub(crate) status: u16,
    pub(crate) kind: Content,
    pub(crate) body: Bytes,
}

/// Returns the response to a request for the account or report `wanted`. If the batch or product
/// doesn't exist, the response is the refusal.
///
/// # Errors
///
/// Returns the faults of the store, and `Memory` if an allocation fails.
pub(crate) fn account_answer<S: JobStore>(
    alloc: Global,
    store: &mut S,
    wanted: Wanted,
) -> Result<Answer, StoreFault>
    ensures stays { Stays (S.state store.old) (S.state store.new) }
    ensures value { Reads (S.state store.old) (S.state store.new) result
        (λ c answer. answer_text answer ≡ account_text c.facts wanted) }
{
    match account(alloc, store, wanted) {
        Ok(body) => Ok(Answer {
            status: 200,
            kind: kind_of(wanted),
            body,
        }),
        Err(fault) => match fault {
            AccountFault::Refused(refusal) => Ok(refused(alloc, refusal)?),
            AccountFault::Store(fault) => Err(fault),
            // The accounts are made in memory, so their calls never return `Write`, as their
            // contracts state.
            AccountFault::Write => Err(StoreFault::Memory),
        },
    }
}

fn kind_of(wanted: Wanted) -> Content
    ensures { result ≡ account_kind wanted }
{
    match wanted {
        Wanted::Report(_) => Content::Report,
        Wanted::Batch(_) | Wanted::Blanks(_) => Content::Json,
    }
}

fn account<S: JobStore>(alloc: Global, store: &mut S, wanted: Wanted) -> Result<Bytes, AccountFault>
    ensures stays { Stays (S.state store.old) (S.state store.new) }
    ensures answers { AnswersText (S.state store.old) (S.state store.new) (unknown_of wanted)
        (λ c. account_of c.facts wanted) result }
{
    match wanted {
        Wanted::Batch(batch) => batch_counts(alloc, store, &batch),
        Wanted::Report(batch) => report_of(alloc, store, &batch),
        Wanted::Blanks(product) => blank_counts(alloc, store, &product),
    }
}

fn refused(alloc: Global, refusal: Refusal) -> Result<Answer, AllocError>
    ensures { IfOk result (λ answer. answer_text answer
        ≡ http_reply_text (http_reply_of (Refused refusal))) }
{
    let reply = Reply::Refused { refusal };
    let body = body_of(alloc, &reply)?;
    Ok(Answer {
        status: status_of(&reply),
        kind: Content::Json,
        body,
    })
}
