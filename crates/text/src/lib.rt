// The lines of the program: bytes in, a word and numbers out; and the lines that are printed. Any bytes are safe.
#![tactic(auto)]

pub mod answers;
pub mod ends;
pub mod fields;
pub mod inputs;
pub mod parses;
pub mod vocabulary;
pub mod writes;
