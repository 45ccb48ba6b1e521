use cx_script::Declared;

/// A name, and what it stands for.
#[derive(Drop)]
pub struct Declaration {
    pub name: Vec<u8>,
    pub what: Declared,
}
