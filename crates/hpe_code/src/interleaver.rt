// The code interleaver: a permutation of a codeword's bits by a polynomial of second degree, whose inverse is another.
ghost use Rattle.std.specs.Prelude.{◌≡◌, ◌<◌, length};
ghost use Rattle.hpe_base.specs.CodeInterleaver.{pi, pi_inverse, IsInterleaved};
ghost use Rattle.hpe_base.specs.Parameters.{codeword_bits};

use hpe_base::{CODE_BITS, NoMemory};
use std::alloc::Global;
use std::marker::Model;

/// The coefficient of `j` in the polynomial that says which code bit goes to place `j`, modulo the code bits.
const LINEAR: u64 = 11;

/// The coefficient of `j^2`.
const QUADRATIC: u64 = 210;

/// The factor of the place in the polynomial of the inverse, where its square has the same factor.
const INVERSE_LINEAR: u64 = 14_891;

/// The code interleaver of a codeword's 15,120 bits, as a table.
#[derive(Drop)]
pub struct CodeTables {
    places: Vec<u16>,
}

impl Model for CodeTables {
    ghost use Rattle.std.specs.Prelude.{◌≡◌, ◌<◌, ℕ, slice_index};
    ghost use Rattle.std.specs.Vec.{vec_len};
    ghost use Rattle.hpe_base.specs.CodeInterleaver.{pi};
    ghost use Rattle.hpe_base.specs.Parameters.{codeword_bits};

    ghost Value = { Unit {0} };

    ghost view = { λ _. tt };

    ghost invariant = { λ t. (vec_len t.places ≡ codeword_bits) × ((j : ℕ) → j < codeword_bits → slice_index t.places.items j ≡ pi j) };
}

impl CodeTables {
    /// Makes the table, in 30,240 octets. It is the same for all links.
    pub fn new(alloc: Global) -> Result<CodeTables, NoMemory> {
        let mut places = Vec::with_capacity(alloc, CODE_BITS).map_err(|_| NoMemory)?;
        for j in 0..CODE_BITS as u64 {
            let place = (LINEAR * j + QUADRATIC * j * j) % CODE_BITS as u64;
            places.push(place as u16).map_err(|_| NoMemory)?;
        }
        Ok(CodeTables { places })
    }

    /// The place of the code bit that goes to place `j`.
    pub fn pi(&self, j: usize) -> usize
        requires { j < codeword_bits }
        ensures { result ≡ pi j }
    {
        self.places[j] as usize
    }

    /// The place that the code bit of place `e` goes to.
    pub fn pi_inverse(&self, e: usize) -> usize
        requires { e < codeword_bits }
        ensures { result ≡ pi_inverse e }
    {
        let place = e as u64;
        ((INVERSE_LINEAR * place + QUADRATIC * place * place) % CODE_BITS as u64) as usize
    }

    /// Puts the value of place `pi(j)` at each place `j`, for the bits of a codeword or values that belong to them.
    ///
    /// Both have 15,120 places.
    pub fn interleave<V: Copy>(&self, from: &[V], into: &mut [V])
        requires from { length from.now ≡ codeword_bits }
        requires into { length into.old ≡ codeword_bits }
        ensures { IsInterleaved from.now into.new }
    {
        for (j, value) in into.iter_mut().enumerate() {
            *value = from[self.pi(j)];
        }
    }

    /// Puts the value of each place `j` at place `pi(j)`, which undoes `interleave` and is undone by it.
    ///
    /// Both have 15,120 places.
    pub fn deinterleave<V: Copy>(&self, from: &[V], into: &mut [V])
        requires from { length from.now ≡ codeword_bits }
        requires into { length into.old ≡ codeword_bits }
        ensures { IsInterleaved into.new from.now }
    {
        for (j, value) in from.iter().enumerate() {
            into[self.pi(j)] = *value;
        }
    }
}
