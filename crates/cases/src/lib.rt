// Document 01's judged samples of the trade: no code, one list and one theorem over it.
#![tactic(auto)]

pub mod example;
