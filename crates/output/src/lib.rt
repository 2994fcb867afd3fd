// Writing what is printed for a journal.
#![tactic(auto)]

mod full;
mod journals;

pub use journals::put_journal;
pub use replay::LONGEST;
