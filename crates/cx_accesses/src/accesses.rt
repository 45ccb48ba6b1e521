use cx_index::NameIndex;
use cx_races::Access;

/// Accesses in order of their lines, and the names of their variables in order of first accesses.
#[derive(Drop)]
pub struct Accesses {
    pub accesses: Vec<Access>,
    pub names: NameIndex,
}
