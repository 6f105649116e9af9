// Document 02 b on trees: the nested mode's definition, its table of worked books, and what follows from it. There is no code.
#![tactic(auto)]
