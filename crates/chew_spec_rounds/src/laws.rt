//! Laws of the definitions.

mod in_step;
mod known;
mod last_rounds;
mod rounds;
mod seqs;
mod session;
mod writing;
