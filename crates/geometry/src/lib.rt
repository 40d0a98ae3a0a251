// No function: the geometry of stars, subdivisions and ranks. specs/Lib.antt is the index.
#![tactic(auto)]
