// For languages that have no enums: an operation's answer as a number and arrays (`layouts`), and the lengths that are asked of what it is lent, for callers
// that allocate (`lengths`).
#![tactic(auto)]

pub mod layouts;
pub mod lengths;
