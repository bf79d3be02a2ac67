// Tests of `script`: texts, each with its fault or with the calls that it says.
#![tactic(auto)]

#[cfg(test)]
mod call_tests;
#[cfg(test)]
mod fault_tests;
