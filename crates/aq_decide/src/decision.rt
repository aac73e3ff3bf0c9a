use aq_cert::Cert;
use aq_ring::Amp;
use aq_symbolic::World;
use sqlite_items::Items;

/// What is decided of an obligation.
#[derive(Drop)]
pub enum Decision {
    /// Each world is included, with one certificate a world, in order.
    Holds(Items<Cert>),
    /// The first world that isn't, the least word of it whose vector the goal doesn't allow, and the state from which
    /// that vector comes.
    Escapes {
        /// The world.
        world: World,
        /// The word.
        word: Items<u32>,
        /// The amplitudes of the word's vector at the beginning, in the automaton of the world's case.
        state: Vec<Amp>,
    },
}
