// Program text to an image: definitions and laws stand in specs/.
#![tactic(auto)]
