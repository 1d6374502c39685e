// The marked cases: this library has no code, only their table in specs/ and the proof that they hold in proofs/.
#![tactic(auto)]
