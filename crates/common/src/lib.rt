// What every crate may stand on: how document 01 numbers an answer, in specs/Answer.antt, "exactly when", in specs/Exactly.antt, numbers four by
// four, in specs/Fours.antt, and laws about lists of numbers, in proofs/ListLaws.antt. There is no code here.
#![tactic(auto)]
