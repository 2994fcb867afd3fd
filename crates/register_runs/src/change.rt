// The changes that the files make in a balance.
use crate::lines::Subject;
use crate::numbers::{Words, index, narrow};
use crate::replies::replies;
use model::{Aquifer, Balance, Place, Title, Unit};
use std::io;
use std::io::Write;

// The index of the fifth title.
const FIFTH: usize = 4;

// A volume of a unit.
#[derive(Clone, Copy)]
pub(crate) enum UnitEntry {
    Extraction,
    Exports,
    Imports,
    Returns,
    Evaporation,
    Commitment,
    Runoff,
}

// A volume of an aquifer.
#[derive(Clone, Copy)]
pub(crate) enum AquiferEntry {
    Natural,
    Pumped,
    Committed,
    Extraction,
}

// A change of a balance. Units, aquifers and titles are meant by their index.
#[derive(Clone, Copy)]
pub(crate) enum Change {
    UnitCount(usize),
    AquiferCount(usize),
    Given(usize),
    Downstream {
        unit: usize,
        to: u8,
    },
    UnitStorage {
        unit: usize,
        to: i64,
    },
    UnitVolume {
        unit: usize,
        entry: UnitEntry,
        to: u32,
    },
    AquiferStorage {
        aquifer: usize,
        to: i64,
    },
    AquiferVolume {
        aquifer: usize,
        entry: AquiferEntry,
        to: u32,
    },
    FifthTitle(Title),
    Cancelled {
        title: usize,
    },
}

// The volume of a unit that a letter names: the runoff by any letter that names no other.
impl From<u8> for UnitEntry {
    fn from(letter: u8) -> Self {
        match letter {
            b'e' => UnitEntry::Extraction,
            b'x' => UnitEntry::Exports,
            b'i' => UnitEntry::Imports,
            b'r' => UnitEntry::Returns,
            b'v' => UnitEntry::Evaporation,
            b'c' => UnitEntry::Commitment,
            _ => UnitEntry::Runoff,
        }
    }
}

// The volume of an aquifer that a letter names: the extraction by any letter that names no other.
impl From<u8> for AquiferEntry {
    fn from(letter: u8) -> Self {
        match letter {
            b'n' => AquiferEntry::Natural,
            b'p' => AquiferEntry::Pumped,
            b'c' => AquiferEntry::Committed,
            _ => AquiferEntry::Extraction,
        }
    }
}

// The count of units, of aquifers or of numbers given, by the second letter.
fn count_of(words: Words) -> Change {
    let count = narrow(words.value);
    match words.field {
        b'u' => Change::UnitCount(count),
        b'a' => Change::AquiferCount(count),
        _ => Change::Given(count),
    }
}

// The change of a unit, by the second letter.
fn unit_change_of(unit: usize, words: Words) -> Change {
    match words.field {
        b'd' => Change::Downstream {
            unit,
            to: narrow(words.value),
        },
        b's' => Change::UnitStorage {
            unit,
            to: words.signed(),
        },
        letter => Change::UnitVolume {
            unit,
            entry: UnitEntry::from(letter),
            to: narrow(words.value),
        },
    }
}

// The change of an aquifer, by the second letter.
fn aquifer_change_of(aquifer: usize, words: Words) -> Change {
    match words.field {
        b's' => Change::AquiferStorage {
            aquifer,
            to: words.signed(),
        },
        letter => Change::AquiferVolume {
            aquifer,
            entry: AquiferEntry::from(letter),
            to: narrow(words.value),
        },
    }
}

// The withdrawal of gu, gw or ga, with its volume last and what it is from and for before that.
fn withdrawal_of(words: Words) -> Title {
    match words.field {
        b'u' => Title::UnitWithdrawal {
            unit: narrow(words.second),
            usage: narrow(words.third),
            volume: narrow(words.value),
        },
        b'w' => Title::ReturningWithdrawal {
            aquifer: narrow(words.first),
            unit: narrow(words.second),
            usage: narrow(words.third),
            volume: narrow(words.value),
        },
        _ => Title::AquiferWithdrawal {
            aquifer: narrow(words.third),
            volume: narrow(words.value),
        },
    }
}

// The transfer of tu or ta, with its volume last and what it is from and to before that.
fn transfer_of(words: Words) -> Title {
    match words.field {
        b'u' => Title::UnitTransfer {
            from: narrow(words.second),
            to: narrow(words.third),
            volume: narrow(words.value),
        },
        _ => Title::AquiferTransfer {
            aquifer: narrow(words.second),
            unit: narrow(words.third),
            volume: narrow(words.value),
        },
    }
}

impl UnitEntry {
    // The entry of a unit.
    fn of(self, unit: &mut Unit) -> &mut u32 {
        match self {
            UnitEntry::Extraction => &mut unit.extraction,
            UnitEntry::Exports => &mut unit.exports,
            UnitEntry::Imports => &mut unit.imports,
            UnitEntry::Returns => &mut unit.returns,
            UnitEntry::Evaporation => &mut unit.evaporation,
            UnitEntry::Commitment => &mut unit.commitment,
            UnitEntry::Runoff => &mut unit.runoff,
        }
    }
}

impl AquiferEntry {
    // The entry of an aquifer.
    fn of(self, aquifer: &mut Aquifer) -> &mut u32 {
        match self {
            AquiferEntry::Natural => &mut aquifer.natural,
            AquiferEntry::Pumped => &mut aquifer.pumped,
            AquiferEntry::Committed => &mut aquifer.committed,
            AquiferEntry::Extraction => &mut aquifer.extraction,
        }
    }
}

impl Change {
    // The change that words say. Words of another first letter, or with a unit, aquifer or title 0, say none.
    pub(crate) fn of(words: Words) -> Option<Self> {
        match words.kind {
            b'b' => Some(count_of(words)),
            b'u' => Some(unit_change_of(index(words.third)?, words)),
            b'a' => Some(aquifer_change_of(index(words.third)?, words)),
            b'g' => Some(Change::FifthTitle(withdrawal_of(words))),
            b't' => Some(Change::FifthTitle(transfer_of(words))),
            b'c' => Some(Change::Cancelled {
                title: index(words.value)?,
            }),
            _ => None,
        }
    }

    // Makes the change in a balance. `None` where it has no such unit, aquifer or title: then it stays as it was.
    pub(crate) fn make(self, balance: &mut Balance) -> Option<()> {
        match self {
            Change::UnitCount(count) => balance.unit_count = count,
            Change::AquiferCount(count) => balance.aquifer_count = count,
            Change::Given(count) => balance.given = count,
            Change::Downstream { unit, to } => balance.units.get_mut(unit)?.downstream = to,
            Change::UnitStorage { unit, to } => balance.units.get_mut(unit)?.storage = to,
            Change::UnitVolume { unit, entry, to } => {
                *entry.of(balance.units.get_mut(unit)?) = to;
            }
            Change::AquiferStorage { aquifer, to } => {
                balance.aquifers.get_mut(aquifer)?.storage = to;
            }
            Change::AquiferVolume { aquifer, entry, to } => {
                *entry.of(balance.aquifers.get_mut(aquifer)?) = to;
            }
            Change::FifthTitle(title) => {
                balance.titles[FIFTH] = Place {
                    title,
                    in_force: true,
                };
            }
            Change::Cancelled { title } => balance.titles.get_mut(title)?.in_force = false,
        }
        Some(())
    }
}

impl Subject for Balance {
    fn act<W: Write>(&mut self, _out: &mut W, words: Words) -> io::Result<()> {
        if let Some(change) = Change::of(words) {
            change.make(self);
        }
        Ok(())
    }

    fn finish<W: Write>(&self, out: &mut W) -> io::Result<()> {
        replies(out, *self)
    }
}
