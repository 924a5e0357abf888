// 02 A.6: descriptions of an image's fields, and the laws of writing and reading by them. Definitions only.
#![tactic(auto)]
