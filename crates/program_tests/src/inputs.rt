// Inputs of a server that fail. A module of its own, since they start threads.

mod failing;
