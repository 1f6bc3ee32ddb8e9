// What an accepted call that takes or gives back room hands back: the stores after it, and its value.
use stores::Stores;

#[derive(Clone, Copy)]
pub struct Roomed {
    pub stores: Stores,
    pub value: u32,
}
