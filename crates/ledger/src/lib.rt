#![tactic(auto)]

// Sequences of calls on one opened memory, and the ledger that they leave (document 01, demand 3), in specs/. No function runs here.
