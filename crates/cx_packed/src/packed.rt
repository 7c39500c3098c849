ghost use Rattle.std.specs.Prelude.{◌≡◌, ◌<◌, ◌^◌, length, IfOk, IfErr};

use crate::index::{first_at, places_of, run_of};
use cx_base::NoMemory;
use cx_state::Env;
use cx_term::Term;
use std::marker::Model;

/// A state beside the places of its cells, ordered by symbol and then by place. Contracts see the state.
#[derive(Drop)]
pub struct Packed {
    env: Env,
    places: Vec<u32>,
}

impl Model for Packed {
    ghost use Rattle.cx_state.specs.declared.state.Env.{Env as State};
    ghost use Rattle.cx_packed.specs.Index.{IsIndex};

    ghost Value = { State };

    ghost view = { λ p. p.env };

    ghost invariant = { λ p. IsIndex p.env.cells p.places.items };
}

/// The allocator refused to make the index; the state is handed back.
#[derive(Drop)]
pub struct PackFault {
    pub env: Env,
}

impl Packed {
    ghost use Rattle.std.specs.Prelude.{◌≡◌, ◌↔◌, IfOk, IsTrue};
    ghost use Rattle.cx_state.specs.Known.{known_in};
    ghost use Rattle.cx_packed.specs.Index.{places_of};

    /// The same state with its index once more.
    pub fn copy(&self) -> Result<Packed, NoMemory>
        ensures { IfOk result (λ copy. copy ≡ self.now) }
    {
        let env = self.env.copy()?;
        let places = self.places.clone()?;
        Ok(Packed { env, places })
    }

    /// The state alone.
    pub fn unpack(&self) -> Result<Env, NoMemory>
        ensures { IfOk result (λ env. env ≡ self.now) }
    {
        self.env.copy()
    }

    /// The places of the cells of the symbol `s`, in rising order.
    pub fn cells_of(&self, s: u32) -> &[u32]
        ensures { result.now ≡ places_of self.now.cells s }
    {
        run_of(self.env.cells.as_slice(), self.places.as_slice(), s)
    }

    /// The place of the known cell: of the first cell of the symbol `s` that has this size and begins at
    /// the symbol plus `at`. None exactly where there is none.
    pub fn known(&self, s: u32, at: &Term, size: u8) -> Option<u32>
        ensures { result ≡ known_in self.now.cells s at.now size }
    {
        first_at(self.env.cells.as_slice(), self.cells_of(s), at, size)
    }

    /// Whether the two states are the same.
    pub fn same(&self, o: &Packed) -> bool
        ensures { IsTrue result ↔ (self.now ≡ o.now) }
    {
        self.env.same(&o.env)
    }
}

/// The state with an index of its cells. Only the allocator can refuse, and then the state is handed back.
pub fn pack(env: Env) -> Result<Packed, PackFault>
    requires few { length env.cells < 2 ^ 32 }
    ensures ok { IfOk result (λ packed. packed ≡ env) }
    ensures err { IfErr result (λ fault. fault.env ≡ env) }
{
    match places_of(env.cells.alloc(), env.cells.as_slice()) {
        Ok(places) => Ok(Packed { env, places }),
        Err(NoMemory) => Err(PackFault { env }),
    }
}
