//! Defines when a database has given rows in the tables of the current schema.
#![tactic(auto)]
