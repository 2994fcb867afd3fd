// The calls of the register, on every balance. Each of the five grants is an entry point of its own, with the fields of its kind, and the
// balance is handed by value: rules of the project.
ghost use Rattle.std.specs.Prelude.{◌≡◌};
ghost use Rattle.model.specs.declared.Title.TheVariants.{UnitWithdrawal, AquiferWithdrawal, UnitTransfer, AquiferTransfer, ReturningWithdrawal};
ghost use Rattle.register.specs.Reply as replies;
ghost use Rattle.register.specs.Cancel as cancels;
ghost use Rattle.register.specs.Calls as calls;

use crate::Reply;
use crate::decision::decide;
use crate::outcome::{number_of, perform, refused};
use model::{Balance, Call, Title};

// The reply to a call of any kind.
pub fn ask(b: Balance, c: Call) -> Reply
    ensures { result ≡ calls.call_reply b c }
{
    let sound = basin::sound(b);
    match decide(&b, sound, c) {
        Ok(()) => Reply {
            answer: Ok(()),
            number: number_of(b.given, c),
            balance: perform(b, c),
        },
        Err(refusal) => refused(b, refusal),
    }
}

// GU: a withdrawal from a unit.
pub fn withdraw(b: Balance, unit: u8, usage: u8, volume: u32) -> Reply
    ensures { result ≡ replies.grant_reply b (UnitWithdrawal unit usage volume) }
{
    let title = Title::UnitWithdrawal {
        unit,
        usage,
        volume,
    };
    ask(b, Call::Grant { title })
}

// GA: a withdrawal from an aquifer.
pub fn pump(b: Balance, aquifer: u8, volume: u32) -> Reply
    ensures { result ≡ replies.grant_reply b (AquiferWithdrawal aquifer volume) }
{
    let title = Title::AquiferWithdrawal { aquifer, volume };
    ask(b, Call::Grant { title })
}

// TU: a transfer from a unit to a unit.
pub fn transfer(b: Balance, from: u8, to: u8, volume: u32) -> Reply
    ensures { result ≡ replies.grant_reply b (UnitTransfer from to volume) }
{
    let title = Title::UnitTransfer { from, to, volume };
    ask(b, Call::Grant { title })
}

// TA: a transfer from an aquifer to a unit.
pub fn bring(b: Balance, aquifer: u8, unit: u8, volume: u32) -> Reply
    ensures { result ≡ replies.grant_reply b (AquiferTransfer aquifer unit volume) }
{
    let title = Title::AquiferTransfer {
        aquifer,
        unit,
        volume,
    };
    ask(b, Call::Grant { title })
}

// GW: a withdrawal from an aquifer whose return goes to a unit.
pub fn pump_returning(b: Balance, aquifer: u8, unit: u8, usage: u8, volume: u32) -> Reply
    ensures { result ≡ replies.grant_reply b (ReturningWithdrawal aquifer unit usage volume) }
{
    let title = Title::ReturningWithdrawal {
        aquifer,
        unit,
        usage,
        volume,
    };
    ask(b, Call::Grant { title })
}

// CA: a cancellation.
pub fn cancel(b: Balance, number: u16) -> Reply
    ensures { result ≡ cancels.cancel_reply b number }
{
    ask(b, Call::Cancel { number })
}
