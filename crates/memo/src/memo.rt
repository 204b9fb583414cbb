ghost use Rattle.std.specs.Prelude.{◌≡◌};
ghost use Rattle.memo.specs.Memos.{Pairs, Puts, NoPairs, none_kept};

use crate::key::Key;

// Pairs from a key, an operator and two handles, to a handle, at most one for a key (a computed table). A memo may
// forget any pair at any time that one is laid.
pub trait Memo {
    // The handle that the memo has for a key.
    ghost recalls: { Self → Pairs };

    fn get(&self, key: Key) -> Option<u32>
        ensures { result ≡ recalls self.now key.op key.x key.y };

    fn put(&mut self, key: Key, h: u32)
        ensures { Puts (recalls self.old) (recalls self.new) key.op key.x key.y h };

    fn clear(&mut self)
        ensures { NoPairs (recalls self.new) };
}

// Keeps no pair.
#[derive(Clone, Copy, PartialEq, Eq, Debug, Default)]
pub struct NoMemo;

impl Memo for NoMemo {
    ghost recalls = { λ _. none_kept };

    fn get(&self, _key: Key) -> Option<u32> {
        None
    }

    fn put(&mut self, _key: Key, _h: u32) {}

    fn clear(&mut self) {}
}
