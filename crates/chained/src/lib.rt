// The recorder's calls in a row, and that conditions 2 and 3 hold of what they hand out: definitions and claims alone.

#![tactic(auto)]
