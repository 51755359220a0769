// Laws only: how far roundings move what is computed near an index, and that what lies within 1 of an index and comes out whole is that index. What a lookup by
// centres would make of them is put aside in the two files of specs/ that end in .txt.
#![tactic(auto)]
