//! Tests of the judge, at hand and over readers: what no program shows, a fault of the outputs' number, the meter, and
//! which read failed; of the example for users; and of merged outputs of shards. Verdicts as texts and shards in files are
//! rows of the checks from outside.
#![tactic(auto)]

#[cfg(test)]
mod example;
#[cfg(test)]
mod given;
#[cfg(test)]
mod merged;
#[cfg(test)]
mod pieces;
#[cfg(test)]
mod readers;
#[cfg(test)]
mod verdicts;
