// Tests of books and of histories on small examples over style marks.
#![tactic(auto)]

#[cfg(test)]
mod calls;
#[cfg(test)]
mod editing_tests;
#[cfg(test)]
mod history_tests;
#[cfg(test)]
mod reading_tests;
#[cfg(test)]
mod refusal_tests;
