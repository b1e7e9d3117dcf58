//! Tests of `trial_machine`: trials of processes whose goals are texts, against what the rules of the language say.
#![tactic(auto)]

#[cfg(test)]
mod answers;
#[cfg(test)]
mod built_in;
#[cfg(test)]
mod changing;
#[cfg(test)]
mod clauses;
#[cfg(test)]
mod large;
#[cfg(test)]
mod made;
#[cfg(test)]
mod prepared;
#[cfg(test)]
mod streams;
#[cfg(test)]
mod thrown;
#[cfg(test)]
mod turning;
#[cfg(test)]
mod uncompiled;
#[cfg(test)]
mod worked;
