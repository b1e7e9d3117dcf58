//! Tests of `logix_app`, by its public call, over a shelf and a sink in memory of which chosen calls fail.
#![tactic(auto)]

#[cfg(test)]
mod failing;
