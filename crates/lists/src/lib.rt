// Laws on lists and tests that the library lacks: a choice by a test, parts of lists, a front that is overwritten.
// The definitions are in specs/ and their laws in proofs/; it has no functions, and rests on nothing.
#![tactic(auto)]
