// No code: the lives of encoders and of decoders, and what is proved of their histories.
#![tactic(auto)]
