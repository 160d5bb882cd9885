//! Finds the cause for refusing an import after its reply was sent, and writes its event line.
ghost use Rattle.std.specs.Prelude.{◌≡◌, IfSome, Some, option_map};
ghost use Rattle.event_lines.specs.Notes.{NotesAll};
ghost use Rattle.job_facts.specs.Reopening.{counts_of};
ghost use Rattle.job_facts.specs.Store.{Stays};
ghost use Rattle.server_run.specs.ImportLines.{FindsProduct, ReadsProduct, file_lines, import_in};
ghost use Rattle.server_run.specs.ImportLines.{import_lines, imported, refusal_of, words_lines};

use crate::observation::Observation;
use crate::words::refusal_in;
use event_lines::EventLog;
use http_messages::reply_parts;
use http_requests::{Asked, Meaning};
use import_causes::note_refused;
use job_facts::{Call, Request, ServerStore};
use std::alloc::Global;
use std::io::Write;
use store_data::{Name, Product, ValidProduct};

/// Adds the product of an import that was refused, because the cause can depend on it. `is_on`
/// tells whether event lines are written. Otherwise nothing is read.
pub(crate) fn with_product<S: ServerStore>(
    store: &mut S,
    is_on: bool,
    mut observation: Observation,
) -> Observation
    ensures stays { Stays (S.state store.old) (S.state store.new) }
    ensures alike { result ≡ record observation { product = result.product; after = result.after } }
    ensures after { result.after ≡ counts_of (S.state store.new) }
    ensures product { ReadsProduct (S.state store.old) (S.state store.new) observation.meaning
        result.product }
{
    let product = refused_product(store, is_on, &observation);
    observation.product = product;
    observation.after = store.fault_counts();
    observation
}

// Returns the product of an import that was refused, if it can be read.
fn refused_product<S: ServerStore>(
    store: &mut S,
    is_on: bool,
    observation: &Observation,
) -> Option<ValidProduct>
    ensures stays { Stays (S.state store.old) (S.state store.new) }
    ensures product { ReadsProduct (S.state store.old) (S.state store.new) observation.now.meaning
        result }
{
    if !is_on {
        return None;
    }
    if observation.status() != "409" {
        return None;
    }
    match imported(&observation.meaning) {
        Some((code, _)) => product_named(store, code),
        None => None,
    }
}

fn product_named<S: ServerStore>(store: &mut S, code: &Name) -> Option<ValidProduct>
    ensures stays { Stays (S.state store.old) (S.state store.new) }
    ensures product { FindsProduct (S.state store.old) (S.state store.new) code.now result }
{
    match store.product(code) {
        Ok(product) => valid_product(product),
        Err(_) => None,
    }
}

// Returns the product, if its settings are in range. The products of a store are.
fn valid_product(product: Option<Product>) -> Option<ValidProduct>
    ensures { IfSome result (λ valid. product ≡ Some valid) }
{
    match product {
        Some(product) => ValidProduct::new(product),
        None => None,
    }
}

// Returns the name of the product and the batch file of an import.
fn imported(meaning: &Meaning) -> Option<(&Name, &[u8])>
    ensures { option_map (λ r. (r.0.now, r.1.now)) result ≡ imported meaning.now }
{
    match meaning {
        Meaning::Asks(asked) => match asked {
            Asked::Arrival(arrival) => import_in(&arrival.request),
            Asked::Account(_) => None,
        },
        Meaning::Broken => None,
        Meaning::Refused(_) => None,
        Meaning::Memory => None,
    }
}

fn import_in(call: &Call) -> Option<(&Name, &[u8])>
    ensures { option_map (λ r. (r.0.now, r.1.now)) result ≡ import_in call.now }
{
    match call {
        Call::Job { request } => match request {
            Request::Import {
                batch: _,
                product,
                raw,
            } => Some((product, raw.as_slice())),
            _ => None,
        },
        Call::Release { upto: _ } => None,
    }
}

/// Writes the event line with the cause for refusing an import because of its batch file. If a
/// write or an allocation fails, only a prefix of the line is written.
pub(crate) fn note_import<E: Write + Drop>(
    alloc: Global,
    events: &mut EventLog<E>,
    observation: &Observation,
)
    ensures level { events.new.level ≡ events.old.level }
    ensures noted { NotesAll events.old.level (E.contents events.old.writer)
        (E.contents events.new.writer) (import_lines observation.now) }
{
    match &observation.product {
        Some(product) => note_file(alloc, events, observation, product),
        None => (),
    }
}

// Writes the line, given the product.
fn note_file<E: Write + Drop>(
    alloc: Global,
    events: &mut EventLog<E>,
    observation: &Observation,
    product: &ValidProduct,
)
    ensures level { events.new.level ≡ events.old.level }
    ensures noted { NotesAll events.old.level (E.contents events.old.writer)
        (E.contents events.new.writer) (file_lines product.now (imported observation.now.meaning)
        (refusal_of observation.now)) }
{
    match imported(&observation.meaning) {
        Some((_, raw)) => note_words(alloc, events, observation, product, raw),
        None => (),
    }
}

// Writes the line, given the product and the batch file.
fn note_words<E: Write + Drop>(
    alloc: Global,
    events: &mut EventLog<E>,
    observation: &Observation,
    product: &ValidProduct,
    raw: &[u8],
)
    ensures level { events.new.level ≡ events.old.level }
    ensures noted { NotesAll events.old.level (E.contents events.old.writer)
        (E.contents events.new.writer) (words_lines product.now raw.now
        (refusal_of observation.now)) }
{
    let parts = reply_parts(observation.reply.as_slice());
    match refusal_in(parts.1) {
        Some((_, name)) => note_refused(alloc, raw, &product.product(), name, events),
        None => (),
    }
}
