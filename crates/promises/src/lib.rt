// What the demands promise, restated where a reviewer opens first: definitions in specs/, theorems in proofs/.
#![tactic(auto)]
