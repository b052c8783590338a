// What it means that a contract determines a call's outcome: definitions alone.

#![tactic(auto)]
