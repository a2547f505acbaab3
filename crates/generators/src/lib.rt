// A generator of the Grain ciphers, over the functions of any of them and registers of any width: definitions and their laws.
#![tactic(auto)]
