// Sockets: what two sockets that talk at once come to, whatever the box does with a message. Laws, and no code.
#![tactic(auto)]
