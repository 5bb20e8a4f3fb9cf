// Tokens of trees, where they stand.
use crate::key::TokenKey;
use life_types::Place;

/// A token by its kind and value, and where it stands.
#[derive(Clone, Copy, Debug)]
pub struct TreeToken {
    /// Its kind and value.
    pub key: TokenKey,
    /// Where it stands.
    pub place: Place,
}
