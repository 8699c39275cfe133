// Theory only: rings of characteristic 2 with a transpose, finite sums, and the composition of the public with the central map. No code.
#![tactic(auto)]
