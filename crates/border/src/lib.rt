// No code: what a C caller has of the G.722 calls, bytes in and bytes out, by their definitions alone.
#![tactic(auto)]
