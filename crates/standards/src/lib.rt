// How a reader recognises the standards in the definitions: laws of those that are not the standards' text word for word, and known answers, computed.
#![tactic(auto)]
