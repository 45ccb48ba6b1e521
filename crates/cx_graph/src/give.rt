ghost use Rattle.std.specs.Prelude.{◌≡◌, ◌<◌, ◌^◌};
ghost use Rattle.cx_graph.specs.Hubs.{group_of, rank_of};

/// A node that leads to each taker of its class and key whose bound is above its place.
#[derive(Clone, Copy)]
pub struct Give {
    pub class: u64,
    pub key: u32,
    pub place: u32,
    pub node: u32,
}

impl Give {
    /// The number of the class and key.
    pub fn group(self) -> u128
        ensures value { result ≡ group_of self.class self.key }
        ensures small { result < 2 ^ 96 }
        ensures place { self.place < 2 ^ 32 }
        ensures key { self.key < 2 ^ 32 }
    {
        group(self.class, self.key)
    }

    /// Where it stands among all, in order of class, key and place.
    pub fn rank(self) -> u128
        ensures { result ≡ rank_of self }
    {
        self.group() * 4_294_967_296 + self.place as u128
    }
}

/// The number of a class and a key.
pub fn group(class: u64, key: u32) -> u128
    ensures value { result ≡ group_of class key }
    ensures small { result < 2 ^ 96 }
{
    class as u128 * 4_294_967_296 + key as u128
}
