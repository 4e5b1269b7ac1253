// The table of the marked instances stands in specs/Table.antt.
#![tactic(auto)]
