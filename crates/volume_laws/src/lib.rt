// Laws over the volume file's public calls: what is written is read back, and what is read is written back. No code.
#![tactic(auto)]
