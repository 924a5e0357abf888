// Form 1 of an image (02 A.6): the whole panel as words and back. Laws alone.
#![tactic(auto)]
