// The product of Pascal's matrix with a word, in five steps of mask, shift and exclusive or (document 004, listing 19).
ghost use Rattle.std.specs.Prelude.{◌≡◌};
ghost use Rattle.digits.specs.Digits.{reversed};
ghost use Rattle.net.specs.Generators.{product};
ghost use Rattle.word.specs.Matrices.{standard_matrices};

// The five steps: the shift width of each, and a mask of the bits that it moves.
const STEPS: [(u32, u32); 5] = [
    (16, 0x0000_ffff),
    (8, 0x00ff_00ff),
    (4, 0x0f0f_0f0f),
    (2, 0x3333_3333),
    (1, 0x5555_5555),
];

// From a reversed index to the second coordinate of the standard matrices. Each step adds to one half of every group of bits the
// other half: Pascal's triangle modulo 2 of twice the size is three copies of itself.
pub fn pascal(word: u32) -> u32
    ensures { result ≡ product 2 standard_matrices.Y (reversed 2 32 word) }
{
    let mut sum = word;
    for (width, mask) in STEPS {
        sum ^= (sum & mask) << width;
    }
    sum
}
