ghost use Rattle.std.specs.Prelude.{◌≡◌, ◌≤◌, IfOk};
ghost use Rattle.cmd_args.specs.Draws.{drawn_word, drawn_place, state_behind, state_after};

use rand_core::SeedableRng;
use rand_core::utils::NextWord;
use rand_xoshiro::SplitMix64;
use rs_base::NoMemory;
use std::marker::Model;

/// The draws of a turn: words of 64 bits, one after another, by SplitMix64. Contracts see its state, a number.
#[derive(Debug, Drop)]
pub struct Draws {
    generator: SplitMix64,
}

impl Model for Draws {
    ghost use Rattle.std.specs.Prelude.{ℕ};

    ghost Value = { ℕ };

    ghost view = { λ d. d.generator };
}

impl Draws {
    /// The draws that begin at the turn's word.
    pub fn new(word: u64) -> Draws
        ensures { result ≡ word }
    {
        Draws {
            generator: SplitMix64::seed_from_u64(word),
        }
    }

    /// The next word.
    pub fn next(&mut self) -> u64
        ensures word { result ≡ drawn_word self.old }
        ensures state { self.new ≡ state_behind self.old }
    {
        self.generator.next_word()
    }

    /// A place among `n`, from 0: the next word modulo `n`.
    pub fn below(&mut self, n: u64) -> u64
        requires { 1 ≤ n }
        ensures place { result ≡ drawn_place n self.old }
        ensures state { self.new ≡ state_behind self.old }
    {
        self.next() % n
    }

    /// The same draws, to be taken a second time.
    pub fn copy(&self) -> Result<Draws, NoMemory>
        ensures { IfOk result (λ copy. copy ≡ self.now) }
    {
        let generator = self.generator.clone()?;
        Ok(Draws { generator })
    }

    /// Goes past so many draws.
    pub fn skip(&mut self, draws: u64)
        ensures { self.new ≡ state_after self.old draws }
    {
        for _ in 0..draws {
            self.next();
        }
    }
}
