// Runs of sessions with saves and loads, in either mode, and demand 3 proved of them; no code. specs/Run.antt says what
// a run is.

#![tactic(auto)]
