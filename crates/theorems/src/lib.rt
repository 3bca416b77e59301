// The laws of the documents over the services' promises: statements and proofs only, in specs/. There are no services here.
#![tactic(auto)]
