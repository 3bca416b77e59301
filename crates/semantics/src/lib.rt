// Parse trees, codes and the order of parses: definitions and laws only, in specs/. There are no services here.
// All of it speaks of the labelled tree of a pattern and of lists of bits, so that it holds however tables and codes are stored; crates syntax
// and bits tie tables and bytes to these. specs/Lib.antt has the layers: what must be believed, how it is computed, and the laws between.
#![tactic(auto)]
