//! Tests of `serve` and `replay` with audits, some of which fail, over memory. The expected values come from the rules, and none from the
//! program.
#![tactic(auto)]

#[cfg(test)]
mod audited;
#[cfg(test)]
mod runs;
#[cfg(test)]
mod script;
