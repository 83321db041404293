#![tactic(auto)]

// Laws of the reference compositor, cited by the proofs of the panel and of its runs.
