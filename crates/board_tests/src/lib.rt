// Tests of the boards' calls at their edges. What holds at every input is proved in `board`; these are examples, run.
#![tactic(auto)]

#[cfg(test)]
mod any;
#[cfg(test)]
mod line;
#[cfg(test)]
mod through;
