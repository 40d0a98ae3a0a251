// No function: the grown tables of document 01 are those of the model, so the local check tells them. specs/Lib.antt is the index.
#![tactic(auto)]
