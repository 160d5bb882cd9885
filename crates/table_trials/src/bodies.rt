//! Macros for exchanges and for the bodies of requests and replies, which are compact JSON.

/// An exchange whose request is accepted with the reply body `$body`.
macro_rules! accepted {
    ($target:expr, $asked:expr, $body:expr) => {
        $crate::exchanges::Exchange($target, $asked, 200, $body)
    };
}

/// An exchange whose request is refused with the code `$code` and the name `$name`.
macro_rules! refused {
    ($target:expr, $asked:expr, $code:literal, $name:literal) => {
        $crate::exchanges::Exchange(
            $target,
            $asked,
            409,
            concat!(r#"{"code":"#, $code, r#","refused":""#, $name, r#""}"#),
        )
    };
}

/// The body of a request that registers a product without the EMV record check. `$max` is the
/// maximum number of data bytes in a STORE DATA command.
macro_rules! product {
    ($name:literal, $max:literal) => {
        concat!(
            r#"{"do":"product","product":""#, $name,
            r#"","max":"#, $max,
            r#","low":0,"check":false}"#
        )
    };
}

/// The body of a request that registers a lot of `$count` blanks, from serial `$first`.
macro_rules! lot {
    ($name:literal, $product:literal, $first:literal, $count:literal) => {
        concat!(
            r#"{"do":"lot","lot":""#, $name,
            r#"","product":""#, $product,
            r#"","first":"#, $first,
            r#","count":"#, $count,
            "}"
        )
    };
}

/// The body of the reply to a request that registers a product or a lot.
macro_rules! made {
    ($what:literal, $name:literal) => {
        concat!(r#"{""#, $what, r#"":""#, $name, r#"","result":"created"}"#)
    };
}

/// The body of the reply to an import that creates a batch with `$count` records of one row each.
macro_rules! imported {
    ($batch:literal, $count:literal) => {
        concat!(
            r#"{"batch":""#, $batch,
            r#"","records":"#, $count,
            r#","result":"created","rows":"#, $count,
            "}"
        )
    };
}

/// The body of a request that opens a session of the batch `$batch` on the blank `$blank`.
macro_rules! open {
    ($batch:literal, $blank:literal) => {
        concat!(r#"{"do":"open","batch":""#, $batch, r#"","blank":"#, $blank, "}")
    };
}

/// The body of the reply to `open`, with the record and its first command.
macro_rules! opened {
    ($batch:literal, $blank:literal, $record:literal, $session:literal) => {
        concat!(
            r#"{"batch":""#, $batch,
            r#"","blank":"#, $blank,
            r#","command":"00A4040006F00000000101","index":0,"record":""#, $record,
            r#"","result":"command","session":"#, $session,
            "}"
        )
    };
}

/// The body of a request that reports the status word `$sw` for the command `$index`.
macro_rules! answer {
    ($session:literal, $index:literal, $sw:literal) => {
        concat!(
            r#"{"do":"answer","session":"#, $session,
            r#","index":"#, $index,
            r#","sw":""#, $sw,
            r#""}"#
        )
    };
}

/// The body of a reply with the next command of a session.
macro_rules! command {
    ($command:literal, $index:literal, $session:literal) => {
        concat!(
            r#"{"command":""#, $command,
            r#"","index":"#, $index,
            r#","result":"command","session":"#, $session,
            "}"
        )
    };
}

/// The body of a reply with the result of a session that ended.
macro_rules! ended {
    ($result:literal, $session:literal) => {
        concat!(r#"{"result":""#, $result, r#"","session":"#, $session, "}")
    };
}

pub(crate) use accepted;
pub(crate) use answer;
pub(crate) use command;
pub(crate) use ended;
pub(crate) use imported;
pub(crate) use lot;
pub(crate) use made;
pub(crate) use open;
pub(crate) use opened;
pub(crate) use product;
pub(crate) use refused;
