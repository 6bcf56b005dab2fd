//! The tests of ks_commands: whole commands over trees in memory, what each prints and leaves, each refusal, and outputs and
//! devices that fail; those of ks_cli, which request the arguments make; and those of the scripts of ks_requests. They are a crate
//! of their own since a crate that has tests is proved once more for them. Nothing stands on it, and without its tests it is
//! empty.
#![tactic(auto)]

#[cfg(test)]
mod args;
#[cfg(test)]
mod backdating;
#[cfg(test)]
mod commands;
#[cfg(test)]
mod dialects;
#[cfg(test)]
mod failing_output;
#[cfg(test)]
mod golden;
#[cfg(test)]
mod refusals;
#[cfg(test)]
mod script_lines;
#[cfg(test)]
mod scripts;
#[cfg(test)]
mod steps;
#[cfg(test)]
mod symbols;
#[cfg(test)]
mod texts;
