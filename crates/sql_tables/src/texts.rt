//! The texts that create the tables of each schema version, and the indexes of version 3.
ghost use Rattle.std.specs.Prelude.{◌≡◌, ◌++◌, map};
ghost use Rattle.sql_tables.specs.Texts.{texts_of};

use crate::versions::Version;

// The table `version` accepts only one row, with the number of its own version.
const VERSION: &str =
    "CREATE TABLE version (id INTEGER NOT NULL PRIMARY KEY CHECK (id = 1), number INTEGER NOT \
    NULL CHECK (number = 3)) STRICT";

const VERSION_TWO: &str =
    "CREATE TABLE version (id INTEGER NOT NULL PRIMARY KEY CHECK (id = 1), number INTEGER NOT \
    NULL CHECK (number = 2)) STRICT";

const VERSION_ONE: &str =
    "CREATE TABLE version (id INTEGER NOT NULL PRIMARY KEY CHECK (id = 1), number INTEGER NOT \
    NULL CHECK (number = 1)) STRICT";

const PRODUCT: &str =
    "CREATE TABLE product (name TEXT NOT NULL PRIMARY KEY, max INTEGER NOT NULL CHECK (max \
    BETWEEN 16 AND 255), low INTEGER NOT NULL CHECK (low BETWEEN 0 AND 31), checked INTEGER \
    NOT NULL CHECK (checked BETWEEN 0 AND 1)) STRICT";

const LOT: &str =
    "CREATE TABLE lot (name TEXT NOT NULL PRIMARY KEY, product TEXT NOT NULL REFERENCES \
    product (name), low_serial INTEGER NOT NULL, amount INTEGER NOT NULL CHECK (amount \
    BETWEEN 1 AND 1000000), discarded INTEGER NOT NULL) STRICT";

const BATCH: &str =
    "CREATE TABLE batch (id INTEGER NOT NULL PRIMARY KEY, name TEXT NOT NULL UNIQUE, product \
    TEXT NOT NULL REFERENCES product (name), raw BLOB NOT NULL, closed INTEGER NOT NULL \
    CHECK (closed BETWEEN 0 AND 1), waiting INTEGER NOT NULL, running INTEGER NOT NULL, \
    failed INTEGER NOT NULL, withdrawn INTEGER NOT NULL, good INTEGER NOT NULL, sessions \
    INTEGER NOT NULL, spoiled INTEGER NOT NULL) STRICT";

const RECORD: &str =
    "CREATE TABLE record (batch INTEGER NOT NULL REFERENCES batch (id), place INTEGER NOT \
    NULL, name TEXT NOT NULL, state INTEGER NOT NULL CHECK (state BETWEEN 0 AND 4), spoiled \
    INTEGER NOT NULL, remakes INTEGER NOT NULL, PRIMARY KEY (batch, place), UNIQUE (batch, \
    name)) STRICT";

// In version 3, `enc` has a third value, and the table has a new name.
const GROUPING: &str =
    "CREATE TABLE grouping2 (batch INTEGER NOT NULL, line INTEGER NOT NULL, place INTEGER NOT \
    NULL, aid BLOB NOT NULL, rank INTEGER NOT NULL CHECK (rank BETWEEN 1 AND 999), enc \
    INTEGER NOT NULL CHECK (enc BETWEEN 0 AND 2), tol INTEGER NOT NULL CHECK (tol BETWEEN 0 \
    AND 1), coded BLOB NOT NULL, PRIMARY KEY (batch, line), FOREIGN KEY (batch, place) \
    REFERENCES record (batch, place)) STRICT";

const UNMIXED_GROUPING: &str =
    "CREATE TABLE grouping (batch INTEGER NOT NULL, line INTEGER NOT NULL, place INTEGER NOT \
    NULL, aid BLOB NOT NULL, rank INTEGER NOT NULL CHECK (rank BETWEEN 1 AND 999), enc \
    INTEGER NOT NULL CHECK (enc BETWEEN 0 AND 1), tol INTEGER NOT NULL CHECK (tol BETWEEN 0 \
    AND 1), coded BLOB NOT NULL, PRIMARY KEY (batch, line), FOREIGN KEY (batch, place) \
    REFERENCES record (batch, place)) STRICT";

const SESSION: &str =
    "CREATE TABLE session (id INTEGER NOT NULL PRIMARY KEY, machine TEXT NOT NULL, batch \
    INTEGER NOT NULL, place INTEGER NOT NULL, serial INTEGER NOT NULL UNIQUE, state INTEGER \
    NOT NULL CHECK (state BETWEEN 0 AND 2), ended INTEGER NOT NULL CHECK (ended BETWEEN 0 \
    AND 1), words INTEGER NOT NULL, app INTEGER NOT NULL, segment INTEGER NOT NULL, \
    at_offset INTEGER NOT NULL, block INTEGER NOT NULL, FOREIGN KEY (batch, place) \
    REFERENCES record (batch, place)) STRICT";

const WORD: &str =
    "CREATE TABLE word (session INTEGER NOT NULL REFERENCES session (id), place INTEGER NOT \
    NULL, sw INTEGER NOT NULL CHECK (sw BETWEEN 0 AND 65535), PRIMARY KEY (session, place)) \
    STRICT";

const BLANK: &str =
    "CREATE TABLE blank (serial INTEGER NOT NULL PRIMARY KEY, lot TEXT NOT NULL REFERENCES \
    lot (name), kind INTEGER NOT NULL CHECK (kind BETWEEN 0 AND 1)) STRICT";

const REMAKE: &str =
    "CREATE TABLE remake (batch INTEGER NOT NULL, place INTEGER NOT NULL, turn INTEGER NOT \
    NULL, PRIMARY KEY (batch, place, turn), FOREIGN KEY (batch, place) REFERENCES record \
    (batch, place)) STRICT";

const REPLY: &str =
    "CREATE TABLE reply (client TEXT NOT NULL, number INTEGER NOT NULL, ask BLOB NOT NULL, \
    status INTEGER NOT NULL, body BLOB NOT NULL, PRIMARY KEY (client, number)) STRICT";

const MARK: &str =
    "CREATE TABLE mark (client TEXT NOT NULL PRIMARY KEY, upto INTEGER NOT NULL CHECK (upto \
    BETWEEN 1 AND 999999999999999999)) STRICT";

// The indexes only speed up reads.
const SESSION_RUNNING: &str = "CREATE INDEX session_running ON session (machine, state)";

// The index covers `enc` and `tol`, so they are read from the index only, and it finds the rows of
// one segment.
const GROUPING_PLACE: &str =
    "CREATE INDEX grouping_place ON grouping2 (batch, place, aid, rank, line, enc, tol)";

const SESSION_STANDS: &str = "CREATE INDEX session_stands ON session (batch, state)";

const BATCH_TOLD: &str = "CREATE INDEX batch_told ON batch (name, product, closed)";

const BATCH_NAMED: &str = "CREATE INDEX batch_named ON batch (id, name)";

// The index finds the last lot that starts at or before a serial.
const LOT_SERIAL: &str = "CREATE INDEX lot_serial ON lot (low_serial)";

// The tables that are the same in versions 1 and 2.
const EARLIER: &[&str] = &[
    PRODUCT,
    LOT,
    BATCH,
    RECORD,
    SESSION,
    WORD,
    BLANK,
    REMAKE,
    REPLY,
    UNMIXED_GROUPING,
];

const OURS: &[&str] = &[
    VERSION, PRODUCT, LOT, BATCH, RECORD, GROUPING, SESSION, WORD, BLANK, REMAKE, REPLY, MARK,
];

const OUR_INDICES: &[&str] = &[
    SESSION_RUNNING,
    GROUPING_PLACE,
    SESSION_STANDS,
    BATCH_TOLD,
    BATCH_NAMED,
    LOT_SERIAL,
];

// Returns the texts that create the tables of `version`, each after the tables that it refers to,
// and the texts of its indexes.
pub(crate) fn texts_of(version: Version) -> (&'static [&'static str], &'static [&'static str])
    ensures { map (λ text. text.now) (result.0.now ++ result.1.now) ≡ texts_of version }
{
    match version {
        Version::One => (EARLIER, &[VERSION_ONE]),
        Version::Two => (EARLIER, &[MARK, VERSION_TWO]),
        Version::Three => (OURS, OUR_INDICES),
    }
}
