// What we claim, as theorems about the definitions below: for a request of document 02, a record in specs/ whose fields are its sentences,
// and its proof in proofs/; and what a sheet's key says of the drawings that are marked against it. There is no code here.
#![tactic(auto)]
