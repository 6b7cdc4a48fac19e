// Closed examples of the definitions; specs/ has them.
#![tactic(auto)]
