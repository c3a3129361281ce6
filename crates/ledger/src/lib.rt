// Demand 3: docs/RULES.md, rules 15 and 75: theorems about the definitions that the public calls are proved equal to. It has no function of its own.
#![tactic(auto)]
