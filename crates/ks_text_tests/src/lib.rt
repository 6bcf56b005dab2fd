//! The tests of the libraries that read and write texts: ks_symbols, ks_output, ks_compare and ks_fixdep. What their
//! contracts say needs none, so these are worked examples, the texts of refusals, and each public call once with ample memory.
//! They are a crate of their own, over all four, since a crate that has tests is proved once more for them. Nothing stands on it,
//! and without its tests it is empty.
#![tactic(auto)]

#[cfg(test)]
mod blocks;
#[cfg(test)]
mod check;
#[cfg(test)]
mod command_file;
#[cfg(test)]
mod compare;
#[cfg(test)]
mod dialects;
#[cfg(test)]
mod fixdep;
#[cfg(test)]
mod golden;
#[cfg(test)]
mod output;
#[cfg(test)]
mod symbols;
#[cfg(test)]
mod written;
