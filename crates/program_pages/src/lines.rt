/// The line of this number, from 1 on, and the place at which it begins. Behind the last newline a
/// last line begins, which may be empty.
pub fn line_at(text: &[u8], number: u32) -> Option<(usize, &[u8])> {
    let mut at: usize = 0;
    let mut passed: u32 = 1;
    for line in text.split(|byte| *byte == b'\n') {
        if passed == number {
            return Some((at, line));
        }
        passed = passed.saturating_add(1);
        at = behind(at, line);
    }
    None
}

/// The number of the first line of just these bytes, and the place at which it begins.
pub fn find_line(text: &[u8], wanted: &[u8]) -> Option<(u32, usize)> {
    let mut at: usize = 0;
    let mut number: u32 = 1;
    for line in text.split(|byte| *byte == b'\n') {
        if line == wanted {
            return Some((number, at));
        }
        number = number.saturating_add(1);
        at = behind(at, line);
    }
    None
}

/// The place behind a line that begins here.
pub fn behind(at: usize, line: &[u8]) -> usize {
    at.saturating_add(line.len()).saturating_add(1)
}
