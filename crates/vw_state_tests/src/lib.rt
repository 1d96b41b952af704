//! Tests of states: commands that save them, and that go on from them on other boards, by other plans and with other numbers of
//! workers. They stand in a crate of their own, so that their proofs don't wait for those of other commands' tests.
#![tactic(auto)]

#[cfg(test)]
mod tests;
