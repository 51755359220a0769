#![tactic(auto)]

// How large numbers grow: laws alone, in specs/. |x| ≤ n·2^k through each operation, and a normalised vector's components.
