// Two nodes that differ in the beacons of other networks alone: this library has no code, only the statement in specs/ and its proof in proofs/.
#![tactic(auto)]
