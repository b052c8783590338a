// The layout as definitions, and what is true of them.

#![tactic(auto)]
