// The stream of a text's steps and schedule, written from its end (02 §1).
#![tactic(auto)]
