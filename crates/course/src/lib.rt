// Theory for the course: page 01's sixteen facts as one statement, and its pages that hold for every set. There is no code here.
#![tactic(auto)]
