// Calls of the kernel's converter one after the other: the theorems are in specs/Laws, the worked examples in specs/Table.
#![tactic(auto)]
