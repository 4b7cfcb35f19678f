// The theorems on the lot judge in one place: no code, statements with their laws.
#![tactic(auto)]
