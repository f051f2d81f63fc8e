// What the promises mean: the demands and the requests, sentence by sentence. Theorems, and no code.
#![tactic(auto)]
