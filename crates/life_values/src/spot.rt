// Where a value stands.
use life_store::ObjRef;

/// A slot of an object, and the word of it at which a value begins.
#[derive(Clone, Copy)]
pub struct Spot {
    pub object: ObjRef,
    pub slot: u32,
    pub word: u64,
}
