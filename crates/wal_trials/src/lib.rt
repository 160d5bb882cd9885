//! Tests of `wal_damage` over files in memory: no power failure leaves a WAL that counts as damaged,
//! and a flipped bit is found if a commit follows it.
#![tactic(auto)]

#[cfg(test)]
mod flips;
#[cfg(test)]
mod mixing;
#[cfg(test)]
mod power_cuts;
#[cfg(test)]
mod recorded;
#[cfg(test)]
mod runs;
