// The theory of vertex-disjoint paths over an abstract graph: definitions in specs/, theorems in proofs/. There is no code.
#![tactic(auto)]
