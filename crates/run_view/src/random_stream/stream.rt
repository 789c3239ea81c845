//! The stream of random numbers of a seed.
ghost use Rattle.std.specs.Prelude.{◌≡◌, ◌*◌, ◌/◌, ◌^◌, ◌<◌, ◌≤◌, pos, ◌+ℤ◌, ◌≤ℤ◌, ◌<ℤ◌};
ghost use Rattle.run_view.specs.RandomStream.Generator.{seeded, next, word};
ghost use Rattle.run_view.specs.RandomStream.Draw.{drawn, span_limit};

use rand_core::SeedableRng;
use rand_core::utils::NextWord;
use rand_pcg::Lcg64Xsh32;
use std::marker::Model;

/// What a word gives of a range of so many numbers, by its place in the range from 0.
#[tactic(auto, using(crate::proofs::RandomStreamLemmas::Share::share_below))]
fn share(word: u32, span: u64) -> u64
    requires some { 1 ≤ span }
    requires few { span ≤ span_limit }
    ensures value { result ≡ word * span / 2 ^ 32 }
    ensures below { result < span }
{
    u64::from(word) * span / (1 << 32)
}

/// A stream of random words, which contracts see as the `Generator` of `specs/Generator.antt`. No call takes memory.
#[derive(Drop)]
pub struct RandomStream {
    generator: Lcg64Xsh32,
}

impl Model for RandomStream {
    ghost use Rattle.run_view.specs.RandomStream.Generator.{Generator};

    ghost Value = { Generator };

    ghost view = { λ stream. record { state = stream.generator.state; increment = stream.generator.increment } };
}

impl RandomStream {
    /// The stream of a seed.
    #[tactic(auto, using(crate::proofs::RandomStreamLemmas::Seeding::seeded_alike))]
    pub fn new(seed: u64) -> RandomStream
        ensures { result ≡ seeded seed }
    {
        RandomStream {
            generator: Lcg64Xsh32::seed_from_u64(seed),
        }
    }

    /// A number from `low` to `low + span - 1`, as `random.randint(low, low + span - 1)` draws it: `low` and the whole part of the next
    /// word times `span`, divided by 2^32. It takes one word. The span is from 1 to 2^32, and the last number of the range is a whole
    /// number of 128 bits.
    pub fn draw(&mut self, low: i128, span: u64) -> i128
        requires some { 1 ≤ span }
        requires few { span ≤ span_limit }
        requires whole { (low +ℤ pos span) ≤ℤ pos (2 ^ 127) }
        ensures value { result ≡ drawn low span (word self.old.state) }
        ensures next { self.new ≡ next self.old }
        ensures least { low ≤ℤ result }
        ensures below { result <ℤ (low +ℤ pos span) }
    {
        let word = self.generator.next_word();
        low + i128::from(share(word, span))
    }
}
