// Numbers in binary: bits of numbers, of cells and of words, for any width. Definitions and laws only, in specs/. There are no services here.
#![tactic(auto)]
