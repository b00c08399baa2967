// Prints what is also computed by rust/reference, and is compared with it byte by byte: the first 1,024 points of the standard pair,
// plain and shifted, points of a pair that is not standard, and the answers of check, query, fill and walk at their limits. Then unit
// numbers by their bits, positions in regions, answers to region files, listings, sheets, and points, queries and refusals under flips.
#![tactic(auto)]

mod checks;
mod files;
mod fills;
mod flipped;
mod pairs;
mod points;
mod positions;
mod queries;
mod sheets;
mod shown;
mod units;
mod walks;

// Each section to standard output, which `out` stands for. A write that fails shows as a difference in the comparison, and what comes after it is
// written all the same.
fn main(rt: HostRuntime) {
    let out = &rt;
    points::points(out);
    checks::checks(out);
    queries::queries(out);
    fills::fills(out);
    walks::walks(out);
    units::units(out);
    positions::visits(out);
    positions::positions(out);
    positions::fields(out);
    walks::steps(out);
    files::files(out);
    files::long(out);
    files::listings(out);
    sheets::sheets(out);
    flipped::flipped(out);
}
