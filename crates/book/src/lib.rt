// The book: reading a description record by record, and opening it as a balance.
#![tactic(auto)]

mod opening;
mod step;

pub use opening::read_book;

// What a record does to a description: it ends it, opens a unit, belongs to the open unit, or adds an aquifer. `to` is the
// offset of the next record. With four outcomes it is no Option.
#[derive(Clone, Copy)]
pub enum Next {
    Ends,
    Opens { unit: record::UnitRecord, to: usize },
    Grows { unit: record::UnitRecord, to: usize },
    Adds { aquifer: model::Aquifer, to: usize },
}

// The reply of opening a book: accepted, with the offset where the description ends and the balance, or refused under a number, with its
// place and the fresh balance. Place and balance stand beside the answer, since both are promised in either case.
#[derive(Clone, Copy)]
pub struct Opened {
    pub answer: model::Answer,
    pub place: usize,
    pub balance: model::Balance,
}
