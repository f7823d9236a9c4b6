// What is checked above the layers: worked examples as theorems about the definitions that the contracts cite, and tests through the public calls.
#![tactic(auto)]

#[cfg(test)]
mod cash;
pub mod examples;
#[cfg(test)]
mod kind_values;
#[cfg(test)]
mod lines;
#[cfg(test)]
mod listings;
#[cfg(test)]
mod margins;
#[cfg(test)]
mod numbers;
#[cfg(test)]
mod printed;
#[cfg(test)]
mod runs_of_calls;
#[cfg(test)]
mod scripts;
#[cfg(test)]
mod written_slips;
