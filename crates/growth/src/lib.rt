// No function: the mathematics of grown meshes. specs/Lib.antt is the index, docs/MODEL.md the page that explains it.
#![tactic(auto)]
