// 02 A.6: every panel that the operations gave is in the ranges of its image. Laws alone.
#![tactic(auto)]
