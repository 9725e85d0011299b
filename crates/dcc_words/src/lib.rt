//! The words of events in a script and of commands on a command line: numbers, moments, hosts, octets in hexadecimal digits, and
//! subscribers.
//!
//! Stands on `dcc_act` for moments and subscribers, on `dcc_tariff` for the last moment, on `dcc_base` for hosts, and on `dcc_octets`;
//! `hex` reads digits. The contract that it gives: each function returns the value of a word by `specs/Words.antt`, or nothing if the
//! word doesn't have the form, or its value is outside the limits.
#![tactic(auto)]

mod words;

pub use words::{any_u64, hex_octets, host, moment, parts, peer, sub};
