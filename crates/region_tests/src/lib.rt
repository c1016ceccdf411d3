// Tests of the plain stack and of the region's format, at their edges. What holds at every input is proved in `plain` and `region`;
// these are examples, run.
#![tactic(auto)]

#[cfg(test)]
mod bytes;
#[cfg(test)]
mod damage;
#[cfg(test)]
mod formats;
#[cfg(test)]
mod rounds;
#[cfg(test)]
mod told;
