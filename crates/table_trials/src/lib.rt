//! Tests of stores that no example file can express: failed allocations, crashes, damaged
//! databases, earlier schema versions, and new files.
#![tactic(auto)]

// Helpers of the tests.
#[cfg(test)]
mod bodies;
#[cfg(test)]
mod disks;
#[cfg(test)]
mod exchanges;
#[cfg(test)]
mod stories;

// Stores over lists or tables whose allocations fail.
#[cfg(test)]
mod refused;

// Stores over files: crashes, earlier schema versions, damaged databases, and new files.
#[cfg(test)]
mod carried;
#[cfg(test)]
mod damaged;
#[cfg(test)]
mod places;
#[cfg(test)]
mod stops;
#[cfg(test)]
mod versions;

// The highest numbers.
#[cfg(test)]
mod highest;

// The steps of a statement.
#[cfg(test)]
mod lots;
