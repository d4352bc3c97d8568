//! The control bits of a page header.
ghost use Rattle.std.specs.Prelude.{⊤, [], ◌∷◌, codes};

use bitflags::{Flag, Flags, bitflag_items};

/// The control bits C4 to C14 of a page header (EN 300 706, page header), as a set.
///
/// C4 erase page, C5 newsflash, C6 subtitle, C7 suppress header, C8 update indicator, C9
/// interrupted sequence, C10 inhibit display, C11 magazine serial, C12 to C14 national option
/// character sub-set.
#[derive(Clone, Copy, PartialEq, Eq, Debug)]
pub struct Control(u16);

bitflag_items! {
    impl Control: u16 {
        const C4 = 1;
        const C5 = 2;
        const C6 = 4;
        const C7 = 8;
        const C8 = 16;
        const C9 = 32;
        const C10 = 64;
        const C11 = 128;
        const C12 = 256;
        const C13 = 512;
        const C14 = 1024;
    }
}

impl Flags for Control {
    type Bits = u16;

    ghost exact = { ⊤ };

    ghost table = { (codes "C4", 1) ∷ (codes "C5", 2) ∷ (codes "C6", 4) ∷ (codes "C7", 8)
        ∷ (codes "C8", 16) ∷ (codes "C9", 32) ∷ (codes "C10", 64) ∷ (codes "C11", 128)
        ∷ (codes "C12", 256) ∷ (codes "C13", 512) ∷ (codes "C14", 1024) ∷ [] };

    ghost set_of = { λ c. c.0 };

    fn flags<'a>() -> &'a [Flag<Control>] {
        Control::FLAGS
    }

    fn bits(&self) -> u16 {
        self.0
    }

    fn from_bits_retain(bits: u16) -> Control {
        Control(bits)
    }
}
