// The examples of document 01, E1 to E13, as one table proved by one theorem; no code. specs/Examples.antt has them.

#![tactic(auto)]
