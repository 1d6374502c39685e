// The refusals of every call: this library has no code, only the statement in specs/ and its proof in proofs/.
#![tactic(auto)]
