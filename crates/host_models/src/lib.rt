// What each host replies and keeps: definitions with their laws, and no function.
#![tactic(auto)]
