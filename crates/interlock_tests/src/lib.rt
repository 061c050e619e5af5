//! Tests of the interlock, by public calls only: tables, words and calibrations; steps, threads and receipts; scripts,
//! audits and reports. They are a crate of their own, so that a change of a test doesn't prove the rules again.
#![tactic(auto)]

#[cfg(test)]
mod interlock;
#[cfg(test)]
mod report;
#[cfg(test)]
mod rules;
