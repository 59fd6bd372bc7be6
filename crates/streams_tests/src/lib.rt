//! Tests of what no clause of streams says.
#![tactic(auto)]

#[cfg(test)]
mod ends; // readers and writers that end, fail and are interrupted
#[cfg(test)]
mod echo; // what obeys the lines
#[cfg(test)]
mod tests;
