//! Transaction IDs from a seed.

ghost use Rattle.std.specs.Prelude.{◌≡◌, ◌+◌, ◌%◌, ◌^◌, ◌<◌};
ghost use Rattle.std.specs.Int.{w32, to_le_bytes};
ghost use Rattle.rand_chacha.specs.ChaCha.{word_at};
ghost use Rattle.turn_agent.specs.TransactionIds.{keyed_id_at, next_id, behind_id};

use rand_chacha::ChaCha20Rng;
use rand_core::SeedableRng;
use rand_core::utils::NextWord;
use std::fmt;
use std::marker::Model;
use turn_stun::transaction::TransactionId;

/// The sequence of transaction IDs of a seed: twelve bytes of ChaCha20's key stream each.
///
/// RFC 8489, section 5, requires IDs that an attacker cannot guess. They are as good as the seed is
/// secret. Contracts describe the source by its seed and the number of words of the key stream that
/// were used.
#[derive(Drop)]
pub struct NumberSource {
    /// The seed of the generator. No code reads it: contracts name it.
    seed: [u8; 32],
    // Kept, since a new generator for each ID costs a block of the cipher or more.
    generator: ChaCha20Rng,
}

impl Model for NumberSource {
    ghost use Rattle.turn_agent.specs.TransactionIds.{Source, IsSeeded};

    ghost Value = { Source };

    ghost view = { λ source. record { seed = source.seed; place = source.generator.word_pos } };

    ghost invariant = { λ source. IsSeeded source.seed source.generator };
}

impl NumberSource {
    /// The source at the beginning of the seed's IDs.
    pub fn from_seed(seed: [u8; 32]) -> NumberSource
        ensures { result ≡ record { seed = seed; place = 0 } }
    {
        NumberSource {
            seed,
            generator: ChaCha20Rng::from_seed(seed),
        }
    }

    /// The ID that `draw` returns next.
    ///
    /// The source does not know which IDs are taken: its caller checks that.
    pub fn candidate(&self) -> TransactionId
        ensures { result ≡ next_id self.now }
    {
        let mut generator = self.generator.clone().unwrap();
        drawn_id(&mut generator)
    }

    /// Returns the next ID, and advances the source.
    pub fn draw(&mut self) -> TransactionId
        ensures id { result ≡ next_id self.old }
        ensures after { self.new ≡ behind_id self.old }
    {
        drawn_id(&mut self.generator)
    }
}

/// The seed is not shown, since it reveals all IDs to come.
impl fmt::Debug for NumberSource {
    fn fmt<W: fmt::Write>(&self, f: &mut fmt::Formatter<W>) -> fmt::Result {
        // The seed is not printed (our choice): a reader of a log would know all future IDs.
        let place = self.generator.get_word_pos();
        write!(f, "NumberSource {{ place: {place}, .. }}")
    }
}

/// The next word of the generator, its least significant byte first.
fn drawn_bytes(generator: &mut ChaCha20Rng) -> [u8; 4]
    ensures bytes { result ≡ to_le_bytes w32 (word_at 10 generator.old.key generator.old.stream generator.old.word_pos) }
    ensures after { generator.new ≡ record generator.old { word_pos = (generator.old.word_pos + 1) % 2 ^ 68 } }
{
    generator.next_word().to_le_bytes()
}

/// The ID made of the generator's next three words.
fn drawn_id(generator: &mut ChaCha20Rng) -> TransactionId
    requires stream { generator.old.stream ≡ 0 }
    requires place { generator.old.word_pos < 2 ^ 68 }
    ensures id { result ≡ keyed_id_at generator.old.key generator.old.word_pos }
    ensures after { generator.new ≡ record generator.old { word_pos = (generator.old.word_pos + 3) % 2 ^ 68 } }
{
    let [a, b, c, d] = drawn_bytes(generator);
    let [e, f, g, h] = drawn_bytes(generator);
    let [i, j, k, l] = drawn_bytes(generator);
    TransactionId::from_bytes([a, b, c, d, e, f, g, h, i, j, k, l])
}
