// Answers to region files: small ones with words changed, and one as long as a file may be.
use crate::shown::Answer;
use listing::Cursor;
use text::Pieces;

// The bytes of a record.
const RECORD_BYTES: usize = 32;

// The words of a record.
pub type Record = [u32; 8];

// Two records, both in order.
const BASE: [Record; 3] = [
    [1, 2, 0, 0, 0, 0, 0, 0],
    [2, 4294966796, 0, 1000, 800, 0, 0, 4],
    [0, 100, 4294967096, 300, 400, 2147483648, 1073741824, 3],
];

// A byte, and the word that is put there, little-endian.
pub type Put = (usize, u32);

// Writes the words of a record, little-endian.
fn put_record(bytes: &mut [u8], record: Record) {
    for (bytes, word) in bytes.as_chunks_mut().0.iter_mut().zip(record) {
        *bytes = word.to_le_bytes();
    }
}

// The base file with a word put at each of two bytes, one after the other.
pub fn changed(puts: [Put; 2]) -> [u8; 96] {
    let mut file = [0u8; 96];
    for (bytes, record) in file.chunks_mut(RECORD_BYTES).zip(BASE) {
        put_record(bytes, record);
    }
    for (at, word) in puts {
        text::bytes(&word.to_le_bytes(), &mut file, at);
    }
    file
}

// The file, or its first bytes where it has more.
pub fn cut(file: &[u8], length: usize) -> &[u8] {
    &file[..length.min(file.len())]
}

fn answer(file: &[u8]) -> Answer<&'static str> {
    Answer(region_file::judge(file).map(|()| "accepted"))
}

// The base file with two words put, and then cut to a length.
fn file_line(out: &impl Print, length: usize, puts: [Put; 2]) {
    let file = changed(puts);
    let [(at, word), (at_2, word_2)] = puts;
    let _ = println!(out;
        "{length} {at} {word} {at_2} {word_2} {}",
        answer(cut(&file, length))
    );
}

// Lengths, each with the number of the first record.
const CUTS: [(usize, u32); 8] = [
    (96, 1),
    (0, 1),
    (31, 1),
    (40, 1),
    (95, 1),
    (32, 0),
    (32, 1),
    (64, 1),
];

// The first record, the level, and the bytes that must be zero.
const HEADERS: [Put; 9] = [
    (0, 0),
    (0, 2),
    (4, 0),
    (4, 1),
    (4, 32),
    (4, 33),
    (4, 4294967295),
    (16, 1),
    (28, 16777216),
];

const LINKS: [Put; 7] = [
    (32, 5),
    (32, 3),
    (32, 1),
    (64, 1),
    (64, 2),
    (0, 3),
    (32, 4294967295),
];

// Limits of record 1, kept and passed: of its edges, its extents and its count.
const EDGES: [u32; 5] = [1000000, 1000001, 4293967296, 4293967295, 2147483648];

const EXTENTS: [u32; 5] = [0, 1, 1000000, 1000001, 4294967295];

const COUNTS: [u32; 4] = [0, 4096, 4097, 4294967295];

// Two faults, or a fault off the chain.
const TWO_FAULTS: [[Put; 2]; 13] = [
    [(4, 33), (16, 1)],
    [(16, 1), (32, 5)],
    [(4, 0), (0, 3)],
    [(32, 5), (60, 4097)],
    [(32, 5), (44, 0)],
    [(44, 0), (60, 4097)],
    [(64, 1), (60, 4097)],
    [(64, 1), (92, 4097)],
    [(32, 1), (76, 0)],
    [(0, 2), (60, 4097)],
    [(0, 2), (44, 0)],
    [(32, 0), (92, 4097)],
    [(64, 5), (92, 4097)],
];

// The reader's field at its limits: those of record 2, which is the smaller, and of record 1 where it stands alone; and an empty chain.
const FIELDS: [[Put; 2]; 10] = [
    [(8, 1), (12, 1)],
    [(8, 300), (12, 400)],
    [(8, 301), (12, 400)],
    [(8, 300), (12, 401)],
    [(8, 4294967295), (12, 0)],
    [(8, 0), (12, 4294967295)],
    [(8, 400), (12, 300)],
    [(0, 0), (8, 4294967295)],
    [(32, 0), (8, 301)],
    [(32, 0), (8, 1001)],
];

// A field that is too large, and another fault.
const FIELD_FAULTS: [[Put; 2]; 9] = [
    [(8, 1001), (44, 0)],
    [(8, 1001), (60, 4097)],
    [(8, 301), (60, 4097)],
    [(8, 1001), (32, 5)],
    [(0, 3), (8, 1001)],
    [(64, 1), (8, 301)],
    [(64, 1), (8, 300)],
    [(8, 1001), (16, 1)],
    [(4, 33), (8, 1001)],
];

// One word put, and nothing cut.
fn changes(out: &impl Print, puts: &[Put]) {
    for put in puts {
        file_line(out, 96, [*put, *put]);
    }
}

// The words put at one byte, one after the other.
fn limits(out: &impl Print, at: usize, words: &[u32]) {
    for word in words {
        file_line(out, 96, [(at, *word), (at, *word)]);
    }
}

// Two words put, and nothing cut.
fn faults(out: &impl Print, cases: &[[Put; 2]]) {
    for puts in cases {
        file_line(out, 96, *puts);
    }
}

pub fn files(out: &impl Print) {
    let _ = println!(out; "files");
    for (length, first) in CUTS {
        file_line(out, length, [(0, first), (0, first)]);
    }
    changes(out, &HEADERS);
    changes(out, &LINKS);
    limits(out, 36, &EDGES);
    limits(out, 40, &EDGES);
    limits(out, 44, &EXTENTS);
    limits(out, 48, &EXTENTS);
    limits(out, 60, &COUNTS);
    faults(out, &TWO_FAULTS);
    file_line(out, 40, [(4, 33), (16, 1)]);
    faults(out, &FIELDS);
    faults(out, &FIELD_FAULTS);
    file_line(out, 40, [(8, 1001), (12, 1001)]);
}

// Writes a chain from record 2,047 down through all the others, which are alike but for the record that each names: the one before it.
// Record 2,048 is one more than a file may have, and is put where it has room.
pub fn put_long(file: &mut [u8], like: Record) {
    let [_, left, top, width, height, x, y, count] = like;
    let mut records = file.chunks_mut(RECORD_BYTES);
    if let Some(bytes) = records.next() {
        put_record(bytes, [2047, 32, 0, 0, 0, 0, 0, 0]);
    }
    for (bytes, before) in records.zip(0..2048) {
        put_record(bytes, [before, left, top, width, height, x, y, count]);
    }
}

pub fn long(out: &impl Print) {
    let _ = println!(out; "long");
    let mut file = [0u8; 65568];
    put_long(&mut file, [0, 0, 0, 1, 1, 0, 0, 1]);
    for length in [65536, 65537, 65568, 65504, 32] {
        let _ = println!(out; "{length} {}", answer(cut(&file, length)));
    }
}

// Two records, no record, a refused file, one record alone, and two records with a reader's field, the second as large as record 2.
const LISTED: [[Put; 2]; 6] = [
    [(0, 1), (0, 1)],
    [(0, 0), (0, 0)],
    [(32, 1), (32, 1)],
    [(32, 0), (36, 4294966796)],
    [(8, 200), (12, 100)],
    [(8, 300), (12, 400)],
];

// The first piece of a text, in the buffer that is lent for it.
pub fn first_piece<'a, C: Pieces + Drop>(
    mut cursor: C,
    file: &[u8],
    space: &'a mut [u8],
) -> &'a [u8] {
    let n = cursor.piece(file, space);
    &space[..n]
}

// The listing of each; a piece holds it whole.
pub fn listings(out: &impl Print) {
    let _ = println!(out; "list");
    for puts in LISTED {
        let file = changed(puts);
        let _ = out.write_all(first_piece(Cursor::open(&file), &file, &mut [0; 4096]));
    }
}
