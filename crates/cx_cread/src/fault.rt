ghost use Rattle.std.specs.Prelude.{◌≡◌};
ghost use Rattle.cx_cread.specs.declared.fault.UnitFault.TheVariants.{NoMemory as OutOfMemory};

use cx_base::{NoMemory, Span};
use cx_citem::ItemFault;
use thiserror::Error;

/// Why a text has no items.
#[derive(Debug, Drop, Error)]
pub enum UnitFault {
    /// The bracket opens the 101st level.
    #[error("the bracket at byte {} opens more than 100 levels", .0.first)]
    TooDeep(Span),
    /// Nothing is too deep, and the first of these stands here: a bracket without a partner, a
    /// brace that begins an item, or, where there is none, the first token of an item without an
    /// end.
    #[error("the token at byte {} is not closed", .0.first)]
    Unclosed(Span),
    /// The allocator refused.
    #[error("out of memory")]
    NoMemory,
}

impl From<NoMemory> for UnitFault {
    ghost from_gives = { λ _ e. e ≡ OutOfMemory };

    fn from(_e: NoMemory) -> UnitFault {
        UnitFault::NoMemory
    }
}

impl From<ItemFault> for UnitFault {
    ghost use Rattle.cx_cread.specs.Faults.{fault_of};

    ghost from_gives = { λ f e. e ≡ fault_of f };

    fn from(f: ItemFault) -> UnitFault {
        match f {
            ItemFault::TooDeep(span) => UnitFault::TooDeep(span),
            ItemFault::Unclosed(span) => UnitFault::Unclosed(span),
        }
    }
}
