//! Tests of symbolic units: each call once where it succeeds.
#![tactic(auto)]

#[cfg(test)]
mod symbolic;
