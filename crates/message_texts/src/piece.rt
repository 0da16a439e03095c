use program_pages::behind;

/// Where the piece of this index begins, of those between single spaces; the end of the line where
/// there are fewer.
pub fn place_of_piece(line: &[u8], index: usize) -> usize {
    let mut passed: usize = 0;
    let mut place: usize = 0;
    for piece in line.split(|byte| *byte == b' ') {
        if passed == index {
            return place;
        }
        passed = passed.saturating_add(1);
        place = behind(place, piece);
    }
    line.len()
}
