ghost use Rattle.std.specs.Prelude.{◌≡◌, vec_capacity};
ghost use Rattle.cx_machine.specs.Words.{has, without};

/// Whether the number is among these.
pub fn has(ns: &[u32], n: u32) -> bool
    ensures { result ≡ has ns.now n }
{
    ns.iter().any(|m| *m == n)
}

/// Takes the number out. Its room stays.
pub fn remove_from(ns: &mut Vec<u32>, n: u32)
    ensures left { ns.new.items ≡ without ns.old.items n }
    ensures room { vec_capacity ns.new ≡ vec_capacity ns.old }
{
    ns.retain(|m| *m != n);
}
