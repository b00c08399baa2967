// Masks, which the leading bits of a word choose: of one word, and of all words of a buffer.
ghost use Rattle.std.specs.Prelude.{◌≡◌, map, ◌^◌, ◌≤◌, length};
ghost use Rattle.products.specs.Products.{masked};

// A mask for each choice of the leading bits of a word.
#[derive(Clone, Copy)]
pub(crate) struct Masking<'a> {
    pub bits: u32,
    pub masks: &'a [u32],
    ghost few: { bits ≤ 8 },
    ghost one_each: { length masks.now ≡ 2 ^ bits },
}

impl Masking<'_> {
    // The word, with the mask of its leading bits added.
    pub(crate) fn masked(&self, word: u32) -> u32
        ensures { result ≡ masked self.now.bits self.now.masks.now word }
    {
        word ^ self.masks[word::top(word, self.bits) as usize]
    }

    // The same of every word of a buffer, in place.
    pub(crate) fn mask_all(&self, words: &mut [u32])
        ensures { words.new ≡ map (masked self.now.bits self.now.masks.now) words.old }
    {
        for word in words.iter_mut() {
            *word = self.masked(*word);
        }
    }
}
