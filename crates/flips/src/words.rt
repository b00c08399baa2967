// A word flipped and shifted, and back.
ghost use Rattle.std.specs.Prelude.{◌≡◌, ◌↔◌, true, map};
ghost use Rattle.ranges.specs.Range.{range};
ghost use Rattle.flips.specs.Flips.{flipped, unflipped, NoneSet};
ghost use Rattle.flips.specs.Scramble.{scramble_word, unscramble_word, mask};
ghost use Rattle.flips.specs.Tree.{OnTheWay};

use crate::AxisFlips;

// How many bits from the top can be flipped.
const DEPTH: u32 = 8;

// The weight of the top byte of a word, which holds those bits.
const TOP_BYTE: u32 = 16777216;

// The number of values of that byte; of nodes with a flip bit; and of all nodes, those after the last bit too.
const MASKS: usize = 256;

const NODES: usize = 255;

const TREE: usize = 511;

// Whether no flip bit is set. Where there are no flips, this is what a point pays for them: so all bytes are joined, which the compiler does with
// sixteen at a time, and none is looked at alone.
pub fn none_set(flips: AxisFlips) -> bool
    ensures { (result ≡ true) ↔ NoneSet flips }
{
    flips.iter().fold(0u8, |joined, byte| joined | *byte) == 0
}

// A product with the flips made and the shift added.
pub fn scramble(flips: AxisFlips, shift: u32, word: u32) -> u32
    ensures { result ≡ scramble_word flips shift word }
{
    flip(flips, word) ^ shift
}

// The product of which flips and shift make this word: the shift is taken first, and then the flips.
pub fn unscramble(flips: AxisFlips, shift: u32, word: u32) -> u32
    ensures { result ≡ unscramble_word flips shift word }
{
    unflip(flips, word ^ shift)
}

// The word with each of its top bits flipped where the flip bit of its node is set, in the tree of the bits above it. The nodes are known
// from the word as it came, so that the bits are read one beside the other. A shift by 32 needs 64 bits.
fn flip(flips: AxisFlips, word: u32) -> u32
    ensures { result ≡ flipped flips word }
{
    let wide = word as u64;
    let mut first: u64 = 0;
    let mut mask: u32 = 0;
    for t in 0..8u64 {
        let node = first + (wide >> (32 - t));
        let set = (flips[(node / 8) as usize] as u32 >> (node % 8)) % 2;
        mask = mask * 2 + set;
        first = first * 2 + 1;
    }
    word ^ (mask * TOP_BYTE)
}

// The word that is flipped to this one: the node goes on by the bit as it was before its flip.
fn unflip(flips: AxisFlips, word: u32) -> u32
    ensures { result ≡ unflipped flips word }
{
    let mut node: u32 = 0;
    for t in 0..DEPTH {
        let bit = (word >> (31 - t)) % 2;
        let set = (flips[(node / 8) as usize] as u32 >> (node % 8)) % 2;
        node = node * 2 + 1 + (bit + set) % 2;
    }
    (node - 255) * TOP_BYTE + word % TOP_BYTE
}

// What flips and shift together add to a word, by its top byte.
pub fn masks(flips: AxisFlips, shift: u32) -> [u32; MASKS]
    ensures { result ≡ map (mask flips shift) (range 0 256) }
{
    let tree = added_on_the_way(flips);
    let mut masks = [0u32; MASKS];
    for (v, mask) in masks.iter_mut().enumerate() {
        *mask = (tree[NODES + v] * TOP_BYTE) ^ shift;
    }
    masks
}

// For each node of the tree of leading bits, the root first, what is added to the bits that lead there. Both ways from a node on add the
// node's own flip bit next.
fn added_on_the_way(flips: AxisFlips) -> [u32; TREE]
    ensures { OnTheWay flips 511 result }
{
    let mut tree = [0u32; TREE];
    for node in 0..NODES {
        let set = (flips[node / 8] as u32 >> (node % 8)) % 2;
        let next = tree[node] * 2 + set;
        tree[node * 2 + 1] = next;
        tree[node * 2 + 2] = next;
    }
    tree
}
