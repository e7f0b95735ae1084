// Worked examples, run against the code.
#![tactic(auto)]

#[cfg(test)]
mod choices;
#[cfg(test)]
mod explanations;
#[cfg(test)]
mod lists;
#[cfg(test)]
mod polynomials;
#[cfg(test)]
mod refusals;
