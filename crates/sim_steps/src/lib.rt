//! What a run of the simulator is: the machine, devices at places, and what is done with both.
#![tactic(auto)]
