#![tactic(auto)]

// The person's demands as theorems, in one place, in specs/: each cites the crate that proves it. No function runs here.
