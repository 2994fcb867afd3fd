// The records of the calls, which follow the description.
ghost use Rattle.std.specs.Prelude.{◌≡◌, ◌+◌, ◌≤◌, length};
ghost use Rattle.record.specs.Calls as calls;

use crate::bytes::{bits8, bits16, bits32};
use crate::fields::call_mark;
use crate::{CallAt, CallMark};
use model::{Call, Refusal, Title};

// How many bytes a call's record has, its mark among them.
fn size_of(mark: CallMark) -> usize
    ensures { result ≡ calls.size_of mark }
{
    match mark {
        CallMark::Gu | CallMark::Tu | CallMark::Ta => 8,
        CallMark::Ga => 7,
        CallMark::Gw => 9,
        CallMark::Ca => 4,
    }
}

// What the whole record of a call at an offset asks.
fn call_of(mark: CallMark, s: &[u8], at: usize) -> Call
    requires { at + calls.size_of mark ≤ length s.now }
    ensures { result ≡ calls.call_of mark s.now at }
{
    let title = match mark {
        CallMark::Gu => Title::UnitWithdrawal {
            unit: bits8(s, at + 2),
            usage: bits8(s, at + 3),
            volume: bits32(s, at + 4),
        },
        CallMark::Ga => Title::AquiferWithdrawal {
            aquifer: bits8(s, at + 2),
            volume: bits32(s, at + 3),
        },
        CallMark::Tu => Title::UnitTransfer {
            from: bits8(s, at + 2),
            to: bits8(s, at + 3),
            volume: bits32(s, at + 4),
        },
        CallMark::Ta => Title::AquiferTransfer {
            aquifer: bits8(s, at + 2),
            unit: bits8(s, at + 3),
            volume: bits32(s, at + 4),
        },
        CallMark::Gw => Title::ReturningWithdrawal {
            aquifer: bits8(s, at + 2),
            unit: bits8(s, at + 3),
            usage: bits8(s, at + 4),
            volume: bits32(s, at + 5),
        },
        CallMark::Ca => {
            return Call::Cancel {
                number: bits16(s, at + 2),
            };
        }
    };
    Call::Grant { title }
}

// What stands at an offset after the description.
#[tactic(auto, unfolding(crate::specs::Calls::call_at))]
pub fn call_at(s: &[u8], at: usize) -> CallAt
    ensures { result ≡ calls.call_at s.now at }
{
    let n = s.len();
    if n <= at {
        return CallAt::End;
    }
    if n - at == 1 {
        return CallAt::Fails {
            refusal: Refusal::Short,
        };
    }
    let Some(mark) = call_mark(s[at], s[at + 1]) else {
        return CallAt::Fails {
            refusal: Refusal::UnknownMark,
        };
    };
    let size = size_of(mark);
    if n - at < size {
        return CallAt::Fails {
            refusal: Refusal::Short,
        };
    }
    CallAt::Asks {
        call: call_of(mark, s, at),
        to: at + size,
    }
}
