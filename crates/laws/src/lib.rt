// The laws of the map.
#![tactic(auto)]
