// Theory only: which element stands where in which stream, the public and the central map, the key, the private change, the linear part. No code.
#![tactic(auto)]
