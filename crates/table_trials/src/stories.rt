//! Stories, which are lists of exchanges, with the accounts of batch B1 and of the blanks of
//! product P1 at their ends.
use crate::bodies::{
    accepted, answer, command, ended, imported, lot, made, open, opened, product, refused,
};
use crate::exchanges::Exchange;

/// Exchanges that prepare a store, the exchanges that follow, and the accounts of batch B1 and of
/// the blanks of P1 at the end.
#[derive(Clone, Copy)]
pub(crate) struct Story {
    pub(crate) stock: &'static [Exchange],
    pub(crate) exchanges: &'static [Exchange],
    /// The account of batch B1: records, waiting, running, failed, withdrawn, good, sessions,
    /// spoiled.
    pub(crate) batch: [u64; 8],
    /// The account of the blanks of P1: lots, total, good, running, spoiled, discarded.
    pub(crate) blanks: [u64; 6],
}

/// A batch file with one record and one grouping.
pub(crate) const ONE_ROW: &str = "record,aid,rank,enc,tol,dgi\nR1,F00000000101,1,0,0,0101027000\n";

/// The set-up: product P1, lot L1 of three blanks from serial 1000, and batch B1 with one record
/// and one grouping.
pub(crate) const SET_UP: [Exchange; 3] = [
    accepted!("/c/office/1", product!("P1", 255), made!("product", "P1")),
    accepted!("/c/office/2", lot!("L1", "P1", 1000, 3), made!("lot", "L1")),
    accepted!("/c/office/3/batch/B1/P1", ONE_ROW, imported!("B1", 1)),
];

const WAITING: &str = r#"{"batch":"B1","record":"R1","result":"waiting"}"#;

const ABORT: &str = r#"{"do":"abort","session":1}"#;

const RESET: &str = r#"{"do":"reset"}"#;

const REMAKE: &str = r#"{"do":"remake","batch":"B1","record":"R1"}"#;

const WITHDRAW: &str = r#"{"do":"withdraw","batch":"B1","record":"R1"}"#;

const WITHDRAWN: &str = r#"{"batch":"B1","record":"R1","result":"withdrawn"}"#;

const CLOSE: &str = r#"{"do":"close","batch":"B1"}"#;

const DISCARD: &str = r#"{"do":"discard","blank":1002}"#;

const DISCARDED: &str = r#"{"blank":1002,"result":"discarded"}"#;

const BUSY: &str = r#"{"code":61,"refused":"machine-busy","session":1}"#;

const NO_ROWS: &str = "record,aid,rank,enc,tol,dgi\n";

const NO_ROWS_REPLY: &str = r#"{"code":40,"refused":"no-rows","row":1}"#;

const OPENING: Exchange = accepted!("/c/m1/1", open!("B1", 1000), opened!("B1", 1000, "R1", 1));

const OUT: Exchange = refused!("/c/m1/3", answer!(1, 1, "9000"), 66, "out-of-turn");

const IN: Exchange = accepted!(
    "/c/m1/2",
    answer!(1, 0, "9000"),
    command!("80E28000050101027000", 1, 1)
);

/// A spoiled card, a remake of its record, and a second card, which is good.
pub(crate) const MADE_AGAIN: Story = Story {
    stock: &SET_UP,
    exchanges: &[
        OPENING,
        IN,
        accepted!("/c/m1/3", answer!(1, 1, "6A80"), ended!("spoiled", 1)),
        accepted!("/c/office/4", REMAKE, WAITING),
        accepted!("/c/m1/4", open!("B1", 1001), opened!("B1", 1001, "R1", 2)),
        accepted!(
            "/c/m1/5",
            answer!(2, 0, "9000"),
            command!("80E28000050101027000", 1, 2)
        ),
        accepted!("/c/m1/6", answer!(2, 1, "9000"), ended!("good", 2)),
        refused!("/c/office/5", REMAKE, 68, "not-failed"),
    ],
    batch: [1, 0, 0, 0, 0, 1, 2, 1],
    blanks: [1, 3, 1, 0, 1, 0],
};

/// Requests with the highest serials, request number, release mark, rank and status word, and a
/// second batch.
pub(crate) const GREATEST: [Exchange; 9] = [
    accepted!("/c/office/1", product!("P1", 255), made!("product", "P1")),
    accepted!(
        "/c/office/2",
        lot!("L1", "P1", 999999999999000000, 1000000),
        made!("lot", "L1")
    ),
    accepted!(
        "/c/office/3/batch/B1/P1",
        "record,aid,rank,enc,tol,dgi\nR1,F00000000101,999,0,0,0101027000\n",
        imported!("B1", 1)
    ),
    accepted!(
        "/c/m1/999999999999999999",
        open!("B1", 999999999999999999),
        opened!("B1", 999999999999999999, "R1", 1)
    ),
    accepted!("/c/m1/1", answer!(1, 0, "FFFF"), ended!("spoiled", 1)),
    accepted!("/c/office/4", REMAKE, WAITING),
    accepted!(
        "/c/office/5",
        r#"{"do":"discard","blank":999999999999000000}"#,
        r#"{"blank":999999999999000000,"result":"discarded"}"#
    ),
    accepted!("/c/office/6/batch/B2/P1", ONE_ROW, imported!("B2", 1)),
    accepted!(
        "/c/other/999999999999999999",
        r#"{"do":"release","upto":999999999999999998}"#,
        r#"{"mark":999999999999999998,"result":"released"}"#
    ),
];

/// A batch whose only card is spoiled. Its record is withdrawn, and the batch is closed.
pub(crate) const CLOSING: Story = Story {
    stock: &SET_UP,
    exchanges: &[
        OPENING,
        accepted!("/c/m1/2", answer!(1, 0, "6F00"), ended!("spoiled", 1)),
        refused!("/c/office/4", CLOSE, 70, "not-finished"),
        accepted!("/c/office/5", WITHDRAW, WITHDRAWN),
        accepted!("/c/office/6", CLOSE, r#"{"batch":"B1","result":"closed"}"#),
        refused!("/c/m1/3", open!("B1", 1001), 57, "batch-closed"),
        refused!("/c/office/7", CLOSE, 57, "batch-closed"),
    ],
    batch: [1, 0, 0, 0, 1, 0, 1, 1],
    blanks: [1, 3, 0, 0, 1, 0],
};

/// A card that is aborted, a card that a reset ends, the remakes of their record, and its
/// withdrawal.
pub(crate) const WITHDRAWAL: Story = Story {
    stock: &SET_UP,
    exchanges: &[
        Exchange("/c/office/4/batch/B2/P1", NO_ROWS, 409, NO_ROWS_REPLY),
        accepted!("/c/office/5", DISCARD, DISCARDED),
        refused!("/c/office/6", DISCARD, 60, "blank-used"),
        OPENING,
        Exchange("/c/m1/2", open!("B1", 1001), 409, BUSY),
        refused!("/c/office/7", WITHDRAW, 69, "not-withdrawable"),
        accepted!("/c/m1/3", ABORT, ended!("spoiled", 1)),
        accepted!("/c/office/8", REMAKE, WAITING),
        accepted!("/c/m1/4", open!("B1", 1001), opened!("B1", 1001, "R1", 2)),
        accepted!("/c/m1/5", RESET, ended!("reset", 2)),
        accepted!("/c/office/9", REMAKE, WAITING),
        accepted!("/c/office/10", WITHDRAW, WITHDRAWN),
        refused!("/c/office/11", REMAKE, 68, "not-failed"),
        refused!("/c/m1/6", answer!(1, 0, "9000"), 65, "session-ended"),
    ],
    batch: [1, 0, 0, 0, 1, 0, 2, 2],
    blanks: [1, 3, 0, 0, 2, 1],
};

/// A repeat, status words out of turn, a used request number, a session of another machine, and a
/// busy machine.
pub(crate) const TURNED_DOWN: Story = Story {
    stock: &SET_UP,
    exchanges: &[
        OPENING,
        OPENING,
        OUT,
        IN,
        OUT,
        refused!("/c/m1/1", open!("B1", 1001), 72, "number-reused"),
        refused!("/c/m2/1", ABORT, 64, "not-yours"),
        Exchange("/c/m1/4", open!("B1", 1001), 409, BUSY),
    ],
    batch: [1, 0, 1, 0, 0, 0, 1, 0],
    blanks: [1, 3, 0, 1, 0, 0],
};

/// Status words for a tolerant segment in two pieces.
pub(crate) const WORDS: Story = Story {
    stock: &[
        accepted!("/c/office/1", product!("P1", 16), made!("product", "P1")),
        accepted!("/c/office/2", lot!("L1", "P1", 1000, 4), made!("lot", "L1")),
        accepted!(
            "/c/office/3/batch/B1/P1",
            "record,aid,rank,enc,tol,dgi\n\
            R1,F00000000101,1,0,1,90010E000102030405060708090A0B0C0D\n\
            R2,F00000000101,1,0,1,90010E000102030405060708090A0B0C0D\n\
            R3,F00000000101,1,0,1,90010E000102030405060708090A0B0C0D\n\
            R4,F00000000101,1,0,1,90010E000102030405060708090A0B0C0D\n",
            imported!("B1", 4)
        ),
    ],
    exchanges: &[
        OPENING,
        accepted!(
            "/c/m1/2",
            answer!(1, 0, "6110"),
            command!("80E200001090010E000102030405060708090A0B0C", 1, 1)
        ),
        accepted!(
            "/c/m1/3",
            answer!(1, 1, "9000"),
            command!("80E28001010D", 2, 1)
        ),
        accepted!("/c/m1/4", answer!(1, 2, "6A88"), ended!("good", 1)),
        accepted!("/c/m1/5", open!("B1", 1001), opened!("B1", 1001, "R2", 2)),
        accepted!("/c/m1/6", answer!(2, 0, "6A88"), ended!("spoiled", 2)),
        accepted!("/c/m1/7", open!("B1", 1002), opened!("B1", 1002, "R3", 3)),
        accepted!(
            "/c/m1/8",
            answer!(3, 0, "9000"),
            command!("80E200001090010E000102030405060708090A0B0C", 1, 3)
        ),
        accepted!("/c/m1/9", answer!(3, 1, "6A88"), ended!("spoiled", 3)),
        accepted!("/c/m1/10", open!("B1", 1003), opened!("B1", 1003, "R4", 4)),
        accepted!("/c/m1/11", answer!(4, 0, "6283"), ended!("spoiled", 4)),
    ],
    batch: [4, 0, 0, 3, 0, 1, 4, 3],
    blanks: [1, 4, 1, 0, 3, 0],
};

/// An import of the same batch, an import of another file under its name, and a file without rows.
pub(crate) const KNOWN: Story = Story {
    stock: &SET_UP,
    exchanges: &[
        accepted!(
            "/c/office/4/batch/B1/P1",
            ONE_ROW,
            r#"{"batch":"B1","records":1,"result":"known","rows":1}"#
        ),
        refused!(
            "/c/office/5/batch/B1/P1",
            "record,aid,rank,enc,tol,dgi\nR1,F00000000101,1,0,0,0102027000\n",
            55,
            "batch-differs"
        ),
        Exchange("/c/office/6/batch/B2/P1", NO_ROWS, 409, NO_ROWS_REPLY),
    ],
    batch: [1, 1, 0, 0, 0, 0, 0, 0],
    blanks: [1, 3, 0, 0, 0, 0],
};

/// Blanks that can't be opened, and lots that overlap.
pub(crate) const TAKEN: Story = Story {
    stock: &SET_UP,
    exchanges: &[
        accepted!("/c/office/4", DISCARD, DISCARDED),
        refused!("/c/m1/1", open!("B1", 1002), 60, "blank-used"),
        refused!("/c/m1/2", open!("B1", 1003), 58, "blank-unknown"),
        accepted!("/c/office/5", product!("P2", 255), made!("product", "P2")),
        accepted!("/c/office/6", lot!("L9", "P2", 2000, 1), made!("lot", "L9")),
        refused!("/c/m1/3", open!("B1", 2000), 59, "blank-of-other-product"),
        refused!(
            "/c/office/7",
            lot!("L2", "P1", 1002, 5),
            54,
            "serials-overlap"
        ),
        accepted!("/c/office/8", lot!("L2", "P1", 1003, 5), made!("lot", "L2")),
        accepted!("/c/m1/4", open!("B1", 1000), opened!("B1", 1000, "R1", 1)),
        refused!("/c/m2/1", open!("B1", 1000), 60, "blank-used"),
    ],
    batch: [1, 0, 1, 0, 0, 0, 1, 0],
    blanks: [2, 8, 0, 1, 0, 1],
};

/// A late reset, which ends the session that is running when the reset arrives.
pub(crate) const LATE_RESET: Story = Story {
    stock: &SET_UP,
    exchanges: &[
        accepted!("/c/m1/21", RESET, ended!("reset", 0)),
        accepted!("/c/m1/22", open!("B1", 1000), opened!("B1", 1000, "R1", 1)),
        accepted!("/c/m1/20", RESET, ended!("reset", 1)),
        refused!("/c/m1/23", answer!(1, 0, "9000"), 65, "session-ended"),
    ],
    batch: [1, 0, 0, 1, 0, 0, 1, 1],
    blanks: [1, 3, 0, 0, 1, 0],
};

/// A release of the request numbers of the set-up by the office.
pub(crate) const RELEASE: Exchange = accepted!(
    "/c/office/20",
    r#"{"do":"release","upto":3}"#,
    r#"{"mark":3,"result":"released"}"#
);

/// The reply to a request with one of the released numbers.
pub(crate) const NUMBER_RELEASED: &str = r#"{"code":73,"mark":3,"refused":"number-released"}"#;

/// A request that discards the last blank of the lot.
pub(crate) const LAST_DISCARDED: Exchange = accepted!("/c/other/2", DISCARD, DISCARDED);

/// A repeat of a request of the set-up after its number was released.
pub(crate) const LATE: Exchange = Exchange(
    "/c/office/2",
    lot!("L1", "P1", 1000, 3),
    409,
    NUMBER_RELEASED,
);

/// Releases of request numbers: of the set-up, of a number that isn't below its own, and of a
/// number that is already released. After the first one, a late repeat arrives.
pub(crate) const RELEASES: Story = Story {
    stock: &SET_UP,
    exchanges: &[
        RELEASE,
        LATE,
        refused!(
            "/c/office/21",
            r#"{"do":"release","upto":21}"#,
            74,
            "release-too-far"
        ),
        accepted!(
            "/c/office/22",
            r#"{"do":"release","upto":1}"#,
            r#"{"mark":3,"result":"released"}"#
        ),
    ],
    batch: [1, 1, 0, 0, 0, 0, 0, 0],
    blanks: [1, 3, 0, 0, 0, 0],
};
