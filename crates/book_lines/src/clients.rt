//! The clients of a database, each with its position.
ghost use Rattle.std.specs.Prelude.{◌≡◌, [], ℕ, IfOk, List, OnOk, fold, map};
ghost use Rattle.store_data.specs.Groups.{with_key};
ghost use Rattle.book_lines.specs.Keyed.{ArePlaces, place_of};
ghost use Rattle.book_lines.specs.Machines.{clients_of};

use crate::client::{Client, OfClient};
use std::alloc::{AllocError, Global};
use std::collections::BTreeMap;
use table_rows::Tables;

/// The clients of a database, in the order in which they first appear, and the position of each.
/// The positions aren't in a hash table, because it would take quadratic time if clients chose
/// their names for that.
#[derive(Drop)]
pub(crate) struct Clients<'a> {
    // The clauses name the clients.
    pub(crate) names: Vec<Client<'a>>,
    places: BTreeMap<&'a [u8], u64>,
    ghost places_are: { ArePlaces places names.items },
}

/// Returns all clients, each once.
///
/// # Errors
///
/// Returns `AllocError` if an allocation fails.
pub(crate) fn clients_of(alloc: Global, tables: &Tables) -> Result<Clients<'_>, AllocError>
    ensures { IfOk result (λ clients. clients.names.items ≡ clients_of tables.now) }
{
    let mut names = Vec::new(alloc);
    let mut places = BTreeMap::new(alloc);
    add_clients(&mut names, &mut places, &tables.sessions)?;
    add_clients(&mut names, &mut places, &tables.replies)?;
    add_clients(&mut names, &mut places, &tables.marks)?;
    Ok(Clients { names, places })
}

// Adds the clients of `rows`.
fn add_clients<'a, T: OfClient>(
    names: &mut Vec<Client<'a>>,
    places: &mut BTreeMap<&'a [u8], u64>,
    rows: &'a [T],
) -> Result<(), AllocError>
    requires { ArePlaces places.old names.old.items }
    ensures names { OnOk result
        (names.new.items ≡ fold with_key names.old.items (map T.client rows.now)) }
    ensures places { OnOk result (ArePlaces places.new names.new.items) }
{
    for row in rows {
        add_client(names, places, row.client())?;
    }
    Ok(())
}

// Adds the client `name`, unless it is one of `names`.
fn add_client<'a>(
    names: &mut Vec<Client<'a>>,
    places: &mut BTreeMap<&'a [u8], u64>,
    name: &'a [u8],
) -> Result<(), AllocError>
    requires { ArePlaces places.old names.old.items }
    ensures names { OnOk result (names.new.items ≡ with_key names.old.items name.now) }
    ensures places { OnOk result (ArePlaces places.new names.new.items) }
{
    if !places.contains_key(name) {
        places.insert(name, names.len() as u64)?;
        names.push(Client { name })?;
    }
    Ok(())
}

/// Returns the position of the client `name`, or the number of clients if `name` isn't a client.
pub(crate) fn place_of(clients: &Clients<'_>, name: &[u8]) -> u64
    ensures { result ≡ place_of clients.now.names.items name.now }
{
    let place = clients.places.get(name).copied();
    place.unwrap_or(clients.names.len() as u64)
}
