// C1 to C11 of document 01, with patterns as texts and codes as bytes: definitions and one theorem, in specs/. There are no services here.
#![tactic(auto)]
