ghost use Rattle.std.specs.Prelude.{◌≡◌};
ghost use Rattle.cx_replay.specs.SplitMix.{next_seed, word};

use rand_core::SeedableRng;
use rand_core::utils::NextWord;
use rand_xoshiro::SplitMix64;

/// The generator of a seeded replay, made from the seed's eight bytes in little-endian order.
pub fn generator(seed: u64) -> SplitMix64
    ensures { result ≡ seed }
{
    SplitMix64::seed_from_u64(seed)
}

/// The next word.
pub fn draw(generator: &mut SplitMix64) -> u64
    ensures value { result ≡ word (next_seed generator.old) }
    ensures state { generator.new ≡ next_seed generator.old }
{
    let word: u64 = generator.next_word();
    word
}
