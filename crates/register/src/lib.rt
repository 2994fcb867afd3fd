// The register: titles granted, transferred and cancelled, each call from a balance to a reply. The steps of a call, for callers that run
// many over one tested balance, are in `decision` and `outcome`.
#![tactic(auto)]

mod asked;
pub mod decision;
pub mod outcome;

pub use asked::{ask, bring, cancel, pump, pump_returning, transfer, withdraw};

// The reply of a call: the answer, the title's number (0 if refused) and the balance. Number and balance stand beside the answer, since a
// refused call is promised the number 0 and the old balance.
#[derive(Clone, Copy)]
pub struct Reply {
    pub answer: model::Answer,
    pub number: u16,
    pub balance: model::Balance,
}
