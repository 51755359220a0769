// What a volume file is: the one judge of its bytes, which the reader, the axes call and the figures share.
#![tactic(auto)]

pub mod inner;
