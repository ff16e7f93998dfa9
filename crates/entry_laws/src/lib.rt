// What a call that is accepted has, apart from the entry points so that a must-fail edit does not check it again.
#![tactic(auto)]
