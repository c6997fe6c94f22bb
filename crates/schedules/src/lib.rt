// No function: this crate says what any code of a tree is, of whatever device (02, request 9), and has theorems about the registers that
// such codes name, in proofs/Theorems.antt.
#![tactic(auto)]
