// No code: what a session's life and history are, and what is proved of them, said once for both kinds of session.
#![tactic(auto)]
