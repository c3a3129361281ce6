// Definitions and laws that several modules share: docs/RULES.md, rule 2. It has no function of its own.
#![tactic(auto)]
