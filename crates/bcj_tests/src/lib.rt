//! What the cases of bcj_cli_rows don't reach: files and sinks by themselves, and the command over those that fail.
#![tactic(auto)]

#[cfg(test)]
mod cli;
#[cfg(test)]
mod edge;
