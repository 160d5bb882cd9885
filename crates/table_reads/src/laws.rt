//! Lemmas about the tables of the current schema, and about the rows that a database holds. Each
//! function does nothing, and its contract is the lemma.
ghost use Rattle.std.specs.Prelude.{◌≡◌};
ghost use Rattle.std.specs.List.{AllByRecursion};
ghost use Rattle.sqlite.specs.Effect.{Database, IsDatabase};
ghost use Rattle.job_facts.specs.Contents.{AreSound, Contents};
ghost use Rattle.sql_tables.specs.Finds.{Finds};
ghost use Rattle.sql_tables.specs.declared.versions.Version.{Version as OfVersion};
ghost use Rattle.sql_rows.specs.Image.{IsImage};
ghost use Rattle.sql_tables.specs.Tables.{our_schema};
ghost use Rattle.image_laws.specs.Image.{image};
ghost use Rattle.table_rows.specs.Tables.{HaveSameRows, Tables};
ghost use Rattle.table_reads.specs.Holding.{HoldsRows};
ghost use Rattle.table_reads.specs.Reading.{Fit};
ghost use Rattle.table_reads.specs.Rowids.{StandAsMade};

use sql_tables::Version;

/// Lemma: every table of the current schema is found in that schema, under its tree number.
pub fn our_tables_are_found()
    ensures { AllByRecursion (Finds our_schema) our_schema.tables }
{}

/// Lemma: a database holds the rows of only one `Tables` value, up to their order, in any schema
/// version.
pub fn held_rows_are_one()
    ensures { (v w : OfVersion) (t u : Tables) (db : Database) → HoldsRows v t db
        → HoldsRows w u db → HaveSameRows t u }
{}

/// Lemma: a database that holds rows also holds them in any other order.
pub fn rows_are_held_in_any_order()
    ensures { (v : OfVersion) (t u : Tables) (db : Database) → HaveSameRows t u → HoldsRows v u db
        → HoldsRows v t db }
{}

/// Lemma: if a database has exactly the tables that the store creates, with different rowids in
/// each table, the rows that it holds are its image. Conversely, a database with an image has such
/// tables and holds the rows of the image.
pub fn our_rows_are_an_image()
    ensures image { (v : OfVersion) (t : Tables) (db : Database) → HoldsRows v t db
        → IsDatabase db → StandAsMade db → IsImage t db }
    ensures stands { (t : Tables) (db : Database) → IsImage t db → StandAsMade db }
    ensures held { (t : Tables) (db : Database) → IsImage t db → HoldsRows Version.Three t db }
{}

/// Lemma: the numbers in the rows of sound contents are in the ranges of the program's types.
pub fn sound_rows_fit()
    ensures { (c : Contents) → AreSound c → Fit (image c) }
{}
