// The flips of two axes by value, taken from bytes.
ghost use Rattle.std.specs.Prelude.{◌≡◌, ◌↔◌, true, length, IfOk};
ghost use Rattle.refusal.specs.Refusal.{of_judgement, of_result};
ghost use Rattle.flips.specs.Flips.{NoneSet};
ghost use Rattle.flips.specs.Load.{flip_bytes, flips_of, no_flips, flips_outcome, flips_loaded, flips_load_outcome};

use refusal::Refusal;

// The number of bytes of an axis's flips.
const FLIP_BYTES: usize = 32;

// The flip bits of an axis, numbered from the lowest bit of byte 0.
pub type AxisFlips = [u8; FLIP_BYTES];

// The flips of both axes.
#[derive(Clone, Copy)]
pub struct Flips {
    pub x: AxisFlips,
    pub y: AxisFlips,
}

// The place of the byte that holds flip bit 255, and the least byte in which that bit is set.
const LAST_BYTE: usize = 31;

const UNUSED_SET: u8 = 128;

impl Flips {
    // No bit is set.
    pub fn none() -> Flips
        ensures { result ≡ no_flips }
    {
        Flips {
            x: [0; FLIP_BYTES],
            y: [0; FLIP_BYTES],
        }
    }

    // Whether no bit of either axis is set.
    pub fn none_set(self) -> bool
        ensures { (result ≡ true) ↔ (NoneSet self.x × NoneSet self.y) }
    {
        crate::none_set(self.x) && crate::none_set(self.y)
    }

    // Whether the bytes of two axes are flips, or why they are refused.
    #[tactic(auto, using(crate::proofs::Loading::judged))]
    pub fn judge(x: &[u8], y: &[u8]) -> Result<(), Refusal>
        ensures answer { of_judgement result ≡ flips_outcome (flips_of x.now y.now) }
        ensures bytes { IfOk result (λ u. (length x.now ≡ flip_bytes) × (length y.now ≡ flip_bytes)) }
    {
        if x.len() != FLIP_BYTES || y.len() != FLIP_BYTES {
            return Err(Refusal::FlipBytes);
        }
        if x[LAST_BYTE] >= UNUSED_SET || y[LAST_BYTE] >= UNUSED_SET {
            return Err(Refusal::FlipBit);
        }
        Ok(())
    }

    // The flips that the bytes of two axes hold; of bytes that are refused, no bit is set. Callers judge first and take them from here by value: a
    // `Result` with 64 bytes in it would be copied more than once, and every point would pay for that.
    pub fn loaded(x: &[u8], y: &[u8]) -> Flips
        ensures { result ≡ flips_loaded (flips_of x.now y.now) }
    {
        let mut flips = Flips::none();
        if let Ok(()) = Flips::judge(x, y) {
            flips.x.copy_from_slice(x);
            flips.y.copy_from_slice(y);
        }
        flips
    }

    // The same, or why the bytes are refused.
    pub fn load(x: &[u8], y: &[u8]) -> Result<Flips, Refusal>
        ensures { of_result (λ f. f) result ≡ flips_load_outcome (flips_of x.now y.now) }
    {
        Flips::judge(x, y)?;
        Ok(Flips::loaded(x, y))
    }
}
