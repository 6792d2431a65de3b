//! CHUNK, FUEL and CAP: how a file is cut into pieces, and how a function runs on each.
ghost use Rattle.std.specs.Prelude.{◌≡◌, ◌≤◌, ◌^◌};
ghost use Rattle.command_words.specs.Commands.{pieces_of};

use crate::numbers::{number_in, wide_number_in};
use std::marker::Model;

/// The most bytes of a piece.
const MOST_CHUNK: u32 = 262_144;

/// The most fuel of a run.
const MOST_FUEL: u64 = 4_294_967_296;

/// The most bytes of an output.
const MOST_CAP: u32 = 4096;

/// How a file is cut into pieces, and how a function runs on each: a piece has 1 to 262,144 bytes, a run at most 2^32
/// units of fuel, and its output at most 4,096 bytes. Contracts see these three numbers.
#[derive(Drop)]
pub struct Pieces {
    chunk: u32,
    fuel: u64,
    cap: u32,
}

impl Model for Pieces {
    ghost use Rattle.std.specs.Prelude.{ℕ, ◌≤◌, ◌^◌};
    ghost use Rattle.command_words.specs.Places.{PieceRun};

    ghost Value = { PieceRun };

    ghost view = { λ p. record { chunk = p.chunk; fuel = p.fuel; cap = p.cap } };

    ghost invariant = { λ p. (1 ≤ p.chunk) × (p.chunk ≤ 262144) × (p.fuel ≤ 2 ^ 32) × (p.cap ≤ 4096) };
}

impl Pieces {
    /// The number of bytes of a piece.
    pub fn chunk(&self) -> u32
        ensures value { result ≡ self.now.chunk }
        ensures some { 1 ≤ self.now.chunk }
        ensures few { self.now.chunk ≤ 262144 }
    {
        self.chunk
    }

    /// The fuel of a run.
    pub fn fuel(&self) -> u64
        ensures value { result ≡ self.now.fuel }
        ensures few { self.now.fuel ≤ 2 ^ 32 }
    {
        self.fuel
    }

    /// The number of bytes of an output.
    pub fn cap(&self) -> u32
        ensures value { result ≡ self.now.cap }
        ensures few { self.now.cap ≤ 4096 }
    {
        self.cap
    }
}

#[tactic(auto, unfolding(crate::specs::Commands::pieces_of))]
pub fn pieces_of(chunk: &str, fuel: &str, cap: &str) -> Option<Pieces>
    ensures { result ≡ pieces_of chunk.now fuel.now cap.now }
{
    let chunk = number_in(1, MOST_CHUNK, chunk.as_bytes())?;
    let fuel = wide_number_in(0, MOST_FUEL, fuel.as_bytes())?;
    let cap = number_in(0, MOST_CAP, cap.as_bytes())?;
    Some(Pieces { chunk, fuel, cap })
}
