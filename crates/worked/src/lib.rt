#![tactic(auto)]

// Executed examples: what the crates answer on books, calls and traces that a reader can check by hand.
#[cfg(test)]
mod books;
#[cfg(test)]
mod drafts;
#[cfg(test)]
mod traces;
#[cfg(test)]
mod watches;
