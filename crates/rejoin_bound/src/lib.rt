// The bound on the outcomes of a rejoin: this library has no code, only the statement in specs/ and its proof in proofs/.
#![tactic(auto)]
