// What looser tolerances and a second division rest on: laws of the tolerance test and of unit vectors. No code.
#![tactic(auto)]
