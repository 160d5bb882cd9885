//! The kinds of stores that run the cases.
use faulty_store::FaultyStore;
use list_store::ListStore;
use schema::SqlStore;
use sqlite::{Connection, MemStore};
use std::alloc::Global;
use worked_exchanges::StoreKind;
use worked_files::CaseFault;

/// A list store.
pub struct Lists;

impl StoreKind for Lists {
    type Store = ListStore;

    fn fresh(alloc: Global) -> Result<ListStore, CaseFault> {
        Ok(ListStore::new(alloc))
    }

    fn called() -> &'static str {
        "lists"
    }
}

/// A list store with a device on which no fault is planned.
pub struct ListsBehindDevice;

impl StoreKind for ListsBehindDevice {
    type Store = FaultyStore;

    fn fresh(alloc: Global) -> Result<FaultyStore, CaseFault> {
        Ok(FaultyStore::new(alloc, None))
    }

    fn called() -> &'static str {
        "lists behind a device"
    }
}

/// A store over the tables of a database in memory.
pub struct Tables;

impl StoreKind for Tables {
    type Store = SqlStore<MemStore>;

    fn fresh(alloc: Global) -> Result<SqlStore<MemStore>, CaseFault> {
        let conn = Connection::open_in_memory(alloc)?;
        match SqlStore::create(alloc, conn) {
            Ok(store) => Ok(store),
            Err(_) => Err(CaseFault::Memory),
        }
    }

    fn called() -> &'static str {
        "tables in memory"
    }
}
