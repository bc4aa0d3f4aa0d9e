// The top: the worked points and the user's three demands, over the definitions of the layers below.
// Nothing runs here; specs/ says what is claimed and proofs/ proves it.
#![tactic(auto)]
