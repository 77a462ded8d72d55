// A script is played: records are read from standard input, each batch updates the yard, and lines are written to standard output.
#![tactic(auto)]

mod playing;

pub use playing::play;
