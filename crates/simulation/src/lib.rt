#![tactic(auto)]

// Laws about one turn on the working memory: wherever the memory shows a state of the machine, the step on bytes is the machine's step. See
// specs/. Nothing here runs.
