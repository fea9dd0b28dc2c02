//! The grammar of conditions, as a relation between symbols and trees. There is no code here: what
//! reads a text is proved against it.

#![tactic(auto)]
