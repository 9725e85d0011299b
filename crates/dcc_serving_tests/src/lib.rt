//! Tests of shards under locks and their receipts, and of an engine whose records fail. They stand apart, since a crate with tests of its own is
//! proved a second time with them. Threads run at once here. No clause says that they do, that no shard waits for another, or that memory was really
//! short where a call says so.
#![tactic(auto)]

#[cfg(test)]
mod accounts;
#[cfg(test)]
mod batches;
#[cfg(test)]
mod closing;
#[cfg(test)]
mod failing;
#[cfg(test)]
mod gates;
