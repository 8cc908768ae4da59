// Definitions of documents 01 and 02 and the mathematics proved from them; no code. specs/Lib.antt says where to begin.

#![tactic(auto)]
