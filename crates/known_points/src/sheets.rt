// Sheets: how long they are, and some of their lines.
use crate::files::{changed, cut, first_piece, put_long};
use sheet::Cursor;
use text::Pieces;

// The columns of a line, which a line feed ends.
const COLUMNS: usize = 27;

const LINE_BYTES: usize = COLUMNS + 1;

// The bytes of a page.
const PAGE_BYTES: usize = 50 * LINE_BYTES;

// Walks through a sheet to its end. Gives the number of its bytes, and how many of them the last piece has, which the buffer then holds. The
// count of calls makes the loop end: no sheet takes so many pieces.
fn walk(file: &[u8], space: &mut [u8]) -> (usize, usize) {
    let mut cursor = Cursor::open(file);
    let mut bytes = 0usize;
    let mut last = 0;
    for _ in 0..100000 {
        let n = cursor.piece(file, space);
        if n == 0 {
            break;
        }
        bytes = bytes.saturating_add(n);
        last = n;
    }
    (bytes, last)
}

// The columns of a line of a text, the first line being 1. A text without that line gives none.
fn columns(text: &[u8], line: usize) -> &str {
    let from = line.saturating_sub(1).saturating_mul(LINE_BYTES);
    match text.get(from..from.saturating_add(COLUMNS)) {
        Some(columns) => str::from_utf8(columns).unwrap_or_default(),
        None => "",
    }
}

// Visits, pages, bytes, the second line and the last.
fn sheet_line(out: &impl Print, visits: u32, file: &[u8]) {
    let mut space = [0u8; 65536];
    let (bytes, last) = walk(file, &mut space);
    let mut begin = [0u8; 4096];
    let second = columns(first_piece(Cursor::open(file), file, &mut begin), 2);
    let last = columns(&space, last / LINE_BYTES);
    let _ = println!(out;
        "{visits} {} {bytes} \"{second}\" \"{last}\"",
        bytes / PAGE_BYTES
    );
}

// Record 1 of the base file with this count of visits, which is alone once the file is cut to two records.
fn one_record(count: u32) -> [u8; 96] {
    changed([(32, 0), (60, count)])
}

// The file with most visits. The first of them lies at the lowest position to the right and the highest downwards.
fn most_line(out: &impl Print) {
    let mut file = [0u8; 65536];
    put_long(
        &mut file,
        [0, 4293967296, 1000000, 1, 1000000, 0, 4294967295, 4096],
    );
    sheet_line(out, 8384512, &file);
}

// Lines of two pages, which a piece holds whole: the heading, the last visit of page 1, its number, and the first two lines behind the heading
// of page 2.
fn two_pages(out: &impl Print) {
    let records = one_record(49);
    let file = cut(&records, 64);
    let mut space = [0u8; 4096];
    let text = first_piece(Cursor::open(file), file, &mut space);
    for line in [1, 49, 50, 52, 53] {
        let _ = println!(out; "{line} \"{}\"", columns(text, line));
    }
}

// A record that names itself.
fn refused(out: &impl Print) {
    let file = changed([(32, 1), (32, 1)]);
    let _ = out.write_all(first_piece(Cursor::open(&file), &file, &mut [0; 4096]));
}

pub fn sheets(out: &impl Print) {
    let _ = println!(out; "sheet");
    for count in [0, 1, 48, 49] {
        sheet_line(out, count, cut(&one_record(count), 64));
    }
    most_line(out);
    two_pages(out);
    refused(out);
}
