//! Scans of a collection of which some documents are gone. The collection lies in parts, one behind another, and each
//! part was scanned, or answered from its index: the numbers that were found there are counted on from the parts before,
//! and a test leaves out those of documents that are gone.
//!
//! It is proved that such a collection has one scan for a query, that it is the collection's own if nothing is gone, and
//! that the scan goes on from part to part. What is gone is any property of numbers, and the test decides it.
#![tactic(auto)]

mod laws;

pub use laws::scans_without;
