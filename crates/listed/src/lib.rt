// That what a call is refused with is one of document 01's refusals, and never `Refusal::Other`: the definition and the claims alone. `Refusal::of` and
// `Refusal::at` answer what they are given, and have no claim here.

#![tactic(auto)]
