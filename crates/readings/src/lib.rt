// What each reading answers (01, "What each operation may refuse"), as definitions that are total on every input, and what demand 3 says. A
// reading is a plan, performed in a room. This crate has no function: specs/ has the definitions, proofs/ their laws, demand 3's theorem
// and worked examples. It rests on `document` for what a reading sees, on `sheet` for what it is asked, and on `xml` for what passing
// means.
#![tactic(auto)]
