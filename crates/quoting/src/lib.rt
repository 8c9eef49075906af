// What a halving costs, and the law of a machine that counts this cost and keeps no list. No code.
#![tactic(auto)]
