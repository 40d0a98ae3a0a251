// No function: a plan holds together. specs/Lib.antt is the index, docs/MODEL.md the page that explains it.
#![tactic(auto)]
