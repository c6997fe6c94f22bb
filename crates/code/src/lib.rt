// What a node needs, 01's code of a tree and its closed runs, in specs/, and the theorems about them, in proofs/Theorems.antt. There
// is no code here: `coder` writes what this defines.
#![tactic(auto)]
