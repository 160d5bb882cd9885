//! The rows that were read from a database file.
use audit_rows::Rule;
use sql_tables::Version;
use table_rows::Tables;

/// The rows of a database, with the result of the audit.
#[derive(Drop)]
pub struct Book {
    /// The schema version.
    pub version: Version,
    /// The first audit rule that the rows break, or `None` if they are the rows of sound contents.
    pub failing: Option<Rule>,
    /// The rows of all tables, sorted. Replies are without their request bytes and bodies.
    pub tables: Tables,
    /// The size of the database file in bytes, if it is known.
    pub size: Option<u64>,
}
