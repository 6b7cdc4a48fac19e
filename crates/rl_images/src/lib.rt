// Laws of images that the code needs; specs/ has them.
#![tactic(auto)]
