ghost use Rattle.std.specs.Prelude.{◌≡◌, [], max};
ghost use Rattle.box_model.specs.Laws.{Kept};
ghost use Rattle.archive_box.specs.Boxes.{fixed, made, state, Tells};

use crate::boxes::ArchiveBox;
use cipher::TwoWayCipher;
use numbers::NumbersOut;
use shelf::Shelf;

impl<C: TwoWayCipher, S: Shelf> ArchiveBox<C, S> {
    /// A box on this cipher and this shelf, whatever the shelf holds, under a key of 32 bytes and a
    /// sign of 8. The first number that it hands out is `first`, or 1 where that is 0.
    pub fn new(cipher: C, shelf: S, key: [u8; 32], sign: [u8; 8], first: u64) -> ArchiveBox<C, S>
        ensures fixed { fixed result ≡ (cipher, key, sign) }
        ensures made { made C.Cipher.forward C.TwoWayCipher.back result ≡ record {
          forward = C.Cipher.forward cipher;
          back = C.TwoWayCipher.back cipher;
          key = key;
          sign = sign;
        } }
        ensures state { state S.Shelf.meaning result ≡ record {
          shelf = S.Shelf.meaning shelf;
          next = max first 1;
          out = [];
        } }
        ensures shelf { result.shelf ≡ shelf }
        ensures law { Tells C.Cipher.forward C.TwoWayCipher.back S.Shelf.meaning Kept result }
    {
        ArchiveBox {
            cipher,
            shelf,
            key,
            sign,
            next: first.max(1),
            out: NumbersOut::new(),
        }
    }
}
