// Rims: whether each facet has the same signed count over the cells that a replacement makes as over those that it takes. Facets are noted
// by their keys, by their signs over the made cells and by the other signs over the taken ones; the rim stays where the keys that count plus are
// those that count minus, each as often. The lists are memory that is got before.
#![tactic(auto)]

mod keys;
mod memory;
mod rim;

pub use memory::RimMemory;
